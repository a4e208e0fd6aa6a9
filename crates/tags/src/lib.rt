// What a step of the reading may take (parser.rs, `media_playlist_tag` and `media_segment_tag`): the rules in `specs/`, a row for each known tag, their laws in
// `proofs/`, and here the values that the answers of the crates above are made of. A tag that 01 leaves out is a value too; the reading refuses it.
#![tactic(auto)]

ghost use Rattle.std.specs.Prelude.{◌≡◌};
ghost use Rattle.text.specs.Nom as nom;
ghost use Rattle.tags.specs.Tags as rule;
ghost use Rattle.tags.specs.Answers.{tag_of, tag_res};

use attributes::ext_map::Map;
use leaves::basic_tags::{ExtTag, PlaylistType};
use leaves::util::ByteRange;
use lengths::duration::Extinf;
use text::{IResult, Span, Why};

// What a tag says of the head.
#[derive(Clone, Copy)]
pub enum HeadTag {
    Version(u64),
    TargetDuration(u64),
    MediaSequence(u64),
    DiscontinuitySequence(u64),
    Typed(PlaylistType),
    IFramesOnly,
    IndependentSegments,
    EndList,
}

// What a tag says of the clip in the making.
#[derive(Clone, Copy)]
pub enum ClipTag {
    Timed(Extinf),
    Ranged(ByteRange),
    Discontinuity,
    Mapped(Map),
}

// Which of the tags that 01 leaves out.
#[derive(Clone, Copy)]
pub enum LeftOut {
    Start,
    Key,
    ProgramDateTime,
    DateRange,
}

#[derive(Clone, Copy)]
pub enum Tag {
    Head(HeadTag),
    Clip(ClipTag),
    Unknown(ExtTag),
    Comment(Option<Span>),
    Uri(Span),
    LeftOut(LeftOut),
}

// A tag that is its fixed text alone, whatever follows.
pub fn marked(text: &[u8], at: usize, fixed: &[u8], t: Tag) -> IResult<Tag>
    ensures { tag_res result ≡ rule.marks (tag_of t) (nom.tag fixed.now) text.now at }
{
    if scan::starts_with(text, at, fixed) {
        let after = at + fixed.len();
        return Ok((t, after));
    }
    Err(Why::OtherText)
}
