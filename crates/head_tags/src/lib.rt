// The tags of a playlist's head (parser.rs, `media_playlist_tag`), each read by its row of `tags`.
// Each function takes any text and any place. Its contract is one equation with a rule of `tags`.
#![tactic(auto)]

ghost use Rattle.std.specs.Prelude.{◌≡◌, [], ◌∷◌};
ghost use Rattle.text.specs.Nom as nom;
ghost use Rattle.text.specs.Util as util;
ghost use Rattle.tags.specs.Tags as rule;
ghost use Rattle.tags.specs.Answers.{head_tag_of, tag_res};
ghost use Rattle.head_tags.specs.Inside.Answers.{number_res, head_res};

use leaves::util::Parsed;
use leaves::{basic_tags, util};
use tags::{HeadTag, LeftOut, Tag};
use text::{IResult, Why};

// Tags of the head differ most in their byte at this place: it stands behind `#EXT-X-`.
const LETTER_PLACE: usize = 7;

// A number after a fixed text.
fn number_after(text: &[u8], at: usize, fixed: &[u8]) -> IResult<u64>
    ensures { number_res result ≡ nom.preceded (nom.tag fixed.now) util.number text.now at }
{
    if scan::starts_with(text, at, fixed) {
        match util::number(text, at + fixed.len()) {
            Parsed::Value(n, after) => return Ok((n, after)),
            Parsed::TooLarge(_) => return Err(Why::TooLarge),
            Parsed::NoDigits => return Err(Why::NoDigits),
        }
    }
    Err(Why::OtherText)
}

// A tag of the head: `Tag` without what only clips have, and so of fewer bytes.
#[derive(Clone, Copy)]
enum Found {
    Head(HeadTag),
    LeftOut(LeftOut),
}

// A tag that is its fixed text alone, whatever follows.
fn marked(text: &[u8], at: usize, fixed: &[u8], t: HeadTag) -> IResult<Found>
    ensures { head_res result ≡ rule.marks (rule.of_head (head_tag_of t)) (nom.tag fixed.now) text.now at }
{
    if scan::starts_with(text, at, fixed) {
        let after = at + fixed.len();
        return Ok((Found::Head(t), after));
    }
    Err(Why::OtherText)
}

// A version that is too large reads as 0.
fn version_tag(text: &[u8], at: usize) -> IResult<Found>
    ensures { head_res result ≡ rule.reads rule.version_row text.now at }
{
    let fixed = b"#EXT-X-VERSION:";
    if scan::starts_with(text, at, fixed) {
        match util::number(text, at + fixed.len()) {
            Parsed::Value(n, after) => return Ok((Found::Head(HeadTag::Version(n)), after)),
            Parsed::TooLarge(after) => return Ok((Found::Head(HeadTag::Version(0)), after)),
            Parsed::NoDigits => return Err(Why::NoDigits),
        }
    }
    Err(Why::OtherText)
}

fn target_duration_tag(text: &[u8], at: usize) -> IResult<Found>
    ensures { head_res result ≡ rule.reads rule.target_duration_row text.now at }
{
    let (n, after) = number_after(text, at, b"#EXT-X-TARGETDURATION:")?;
    Ok((Found::Head(HeadTag::TargetDuration(n)), after))
}

fn media_sequence_tag(text: &[u8], at: usize) -> IResult<Found>
    ensures { head_res result ≡ rule.reads rule.media_sequence_row text.now at }
{
    let (n, after) = number_after(text, at, b"#EXT-X-MEDIA-SEQUENCE:")?;
    Ok((Found::Head(HeadTag::MediaSequence(n)), after))
}

fn discontinuity_sequence_tag(text: &[u8], at: usize) -> IResult<Found>
    ensures { head_res result ≡ rule.reads rule.discontinuity_sequence_row text.now at }
{
    let (n, after) = number_after(text, at, b"#EXT-X-DISCONTINUITY-SEQUENCE:")?;
    Ok((Found::Head(HeadTag::DiscontinuitySequence(n)), after))
}

fn playlist_type_tag(text: &[u8], at: usize) -> IResult<Found>
    ensures { head_res result ≡ rule.reads rule.playlist_type_row text.now at }
{
    let fixed = b"#EXT-X-PLAYLIST-TYPE:";
    if scan::starts_with(text, at, fixed) {
        let (t, after) = basic_tags::playlist_type(text, at + fixed.len())?;
        return Ok((Found::Head(HeadTag::Typed(t)), after));
    }
    Err(Why::OtherText)
}

// The two tags with an `I`.
fn frames_or_apart_tag(text: &[u8], at: usize) -> IResult<Found>
    ensures { head_res result ≡ rule.matched (rule.i_frames_only_row ∷ rule.independent_segments_row ∷ []) text.now at }
{
    let fixed = b"#EXT-X-I-FRAMES-ONLY";
    if scan::starts_with(text, at, fixed) {
        let after = at + fixed.len();
        return Ok((Found::Head(HeadTag::IFramesOnly), after));
    }
    marked(
        text,
        at,
        b"#EXT-X-INDEPENDENT-SEGMENTS",
        HeadTag::IndependentSegments,
    )
}

fn start_tag(text: &[u8], at: usize) -> IResult<Found>
    ensures { head_res result ≡ rule.reads rule.start_row text.now at }
{
    let fixed = b"#EXT-X-START:";
    if scan::starts_with(text, at, fixed) {
        let after = at + fixed.len();
        return Ok((Found::LeftOut(LeftOut::Start), after));
    }
    Err(Why::OtherText)
}

fn end_list_tag(text: &[u8], at: usize) -> IResult<Found>
    ensures { head_res result ≡ rule.reads rule.end_list_row text.now at }
{
    marked(text, at, b"#EXT-X-ENDLIST", HeadTag::EndList)
}

// The tag whose fixed text stands there; one that does not read says its own reason. Only the tags of the letter that stands there are tried: an arm a letter,
// in the order of the rows.
fn tried_head(text: &[u8], at: usize) -> IResult<Found>
    ensures { head_res result ≡ rule.matched rule.playlist_rows text.now at }
{
    match scan::byte_at(text, at, LETTER_PLACE) {
        b'V' => version_tag(text, at),
        b'T' => target_duration_tag(text, at),
        b'M' => media_sequence_tag(text, at),
        b'D' => discontinuity_sequence_tag(text, at),
        b'P' => playlist_type_tag(text, at),
        b'I' => frames_or_apart_tag(text, at),
        b'S' => start_tag(text, at),
        b'E' => end_list_tag(text, at),
        _ => Err(Why::OtherText),
    }
}

// The same, as one of all tags.
pub fn tried_tag(text: &[u8], at: usize) -> IResult<Tag>
    ensures { tag_res result ≡ rule.matched rule.playlist_rows text.now at }
{
    match tried_head(text, at)? {
        (Found::Head(t), after) => Ok((Tag::Head(t), after)),
        (Found::LeftOut(t), after) => Ok((Tag::LeftOut(t), after)),
    }
}

// The first alternative that holds. Where none does, the reason is the last one's: its fixed text is not there.
pub fn playlist_tag(text: &[u8], at: usize) -> IResult<Tag>
    ensures { tag_res result ≡ rule.playlist_tag text.now at }
{
    tried_tag(text, at).or(Err(Why::OtherText))
}
