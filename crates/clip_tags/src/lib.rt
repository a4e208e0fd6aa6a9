// The tags of a clip (parser.rs, `media_segment_tag`), each read by its row of `tags`.
// Each function takes any text and any place. Its contract is one equation with a rule of `tags`. One that is handed the memory of MAP's lists promises it
// where the memory is true of the text, and leaves it true.
#![tactic(auto)]

ghost use Rattle.std.specs.Prelude.{◌≡◌, [], ◌∷◌};
ghost use Rattle.chains.specs.Inside.Kept.{Remembering};
ghost use Rattle.tags.specs.Tags as rule;
ghost use Rattle.tags.specs.Answers.{tag_res};

use chains::ext_map;
use leaves::util;
use lengths::duration;
use tags::{ClipTag, LeftOut, Tag};
use text::{IResult, Why};

// Tags of a clip differ most in their byte at this place: it stands behind `#EXT-X-`, and in `#EXTINF:` it is the colon.
const LETTER_PLACE: usize = 7;

fn extinf_line(text: &[u8], at: usize) -> IResult<Tag>
    ensures { tag_res result ≡ rule.reads rule.extinf_row text.now at }
{
    let fixed = b"#EXTINF:";
    if scan::starts_with(text, at, fixed) {
        let (e, after) = duration::duration_title_tag(text, at + fixed.len())?;
        return Ok((Tag::Clip(ClipTag::Timed(e)), after));
    }
    Err(Why::OtherText)
}

fn byte_range_tag(text: &[u8], at: usize) -> IResult<Tag>
    ensures { tag_res result ≡ rule.reads rule.byte_range_row text.now at }
{
    let fixed = b"#EXT-X-BYTERANGE:";
    if scan::starts_with(text, at, fixed) {
        let (r, after) = util::byte_range_val(text, at + fixed.len())?;
        return Ok((Tag::Clip(ClipTag::Ranged(r)), after));
    }
    Err(Why::OtherText)
}

fn map_tag(text: &[u8], at: usize, memory: &mut [u64]) -> IResult<Tag>
    ensures { Remembering text.now memory.old memory.new (tag_res result ≡ rule.reads rule.map_row text.now at) }
{
    let fixed = b"#EXT-X-MAP:";
    if scan::starts_with(text, at, fixed) {
        let (m, after) = ext_map::extmap(text, at + fixed.len(), memory)?;
        return Ok((Tag::Clip(ClipTag::Mapped(m)), after));
    }
    Err(Why::OtherText)
}

fn date_range_tag(text: &[u8], at: usize) -> IResult<Tag>
    ensures { tag_res result ≡ rule.reads rule.date_range_row text.now at }
{
    let date_range = Tag::LeftOut(LeftOut::DateRange);
    tags::marked(text, at, b"#EXT-X-DATERANGE:", date_range)
}

// The two tags with a `D`.
fn break_or_dates_tag(text: &[u8], at: usize) -> IResult<Tag>
    ensures { tag_res result ≡ rule.matched (rule.discontinuity_row ∷ rule.date_range_row ∷ []) text.now at }
{
    let fixed = b"#EXT-X-DISCONTINUITY";
    if scan::starts_with(text, at, fixed) {
        let after = at + fixed.len();
        return Ok((Tag::Clip(ClipTag::Discontinuity), after));
    }
    date_range_tag(text, at)
}

fn key_tag(text: &[u8], at: usize) -> IResult<Tag>
    ensures { tag_res result ≡ rule.reads rule.key_row text.now at }
{
    let key = Tag::LeftOut(LeftOut::Key);
    tags::marked(text, at, b"#EXT-X-KEY:", key)
}

fn program_date_time_tag(text: &[u8], at: usize) -> IResult<Tag>
    ensures { tag_res result ≡ rule.reads rule.program_date_time_row text.now at }
{
    let date_time = Tag::LeftOut(LeftOut::ProgramDateTime);
    tags::marked(text, at, b"#EXT-X-PROGRAM-DATE-TIME:", date_time)
}

// The tag whose fixed text stands there; one that does not read says its own reason. Only the tags of the letter that stands there are tried: an arm a letter,
// in the order of the rows.
pub fn tried_tag(text: &[u8], at: usize, memory: &mut [u64]) -> IResult<Tag>
    ensures { Remembering text.now memory.old memory.new (tag_res result ≡ rule.matched rule.segment_rows text.now at) }
{
    match scan::byte_at(text, at, LETTER_PLACE) {
        b':' => extinf_line(text, at),
        b'B' => byte_range_tag(text, at),
        b'D' => break_or_dates_tag(text, at),
        b'K' => key_tag(text, at),
        b'M' => map_tag(text, at, memory),
        b'P' => program_date_time_tag(text, at),
        _ => Err(Why::OtherText),
    }
}

// The first alternative that holds. Where none does, the reason is the last one's: its fixed text is not there.
pub fn segment_tag(text: &[u8], at: usize, memory: &mut [u64]) -> IResult<Tag>
    ensures { Remembering text.now memory.old memory.new (tag_res result ≡ rule.segment_tag text.now at) }
{
    tried_tag(text, at, memory).or(Err(Why::OtherText))
}
