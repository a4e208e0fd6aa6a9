// What a step of the reading takes (parser.rs, `media_playlist_tag` and `media_segment_tag`): the alternatives, tried in the crate's order.
// Known tags first, then unknown tags, comments and URIs.
// Each function takes any text and any place. Its contract is one equation with a rule of `tags`. One that is handed the memory of MAP's lists promises it
// where the memory is true of the text, and leaves it true.
#![tactic(auto)]

ghost use Rattle.std.specs.Prelude.{◌≡◌};
ghost use Rattle.chains.specs.Inside.Kept.{Remembering};
ghost use Rattle.tags.specs.Tags as rule;
ghost use Rattle.tags.specs.Answers.{tag_res};

use tags::Tag;
use text::{IResult, Why};

pub mod other; // unknown tags, comments, URIs
pub mod common; // what most lines are, taken at once

pub fn media_segment_tag(text: &[u8], at: usize, memory: &mut [u64]) -> IResult<Tag>
    ensures { Remembering text.now memory.old memory.new (tag_res result ≡ rule.media_segment_tag text.now at) }
{
    clip_tags::segment_tag(text, at, memory).or_else(|_| other::other_tag(text, at))
}

// A line that does not begin with `#` is a URI.
pub fn media_playlist_tag(text: &[u8], at: usize, memory: &mut [u64]) -> IResult<Tag>
    ensures { Remembering text.now memory.old memory.new (tag_res result ≡ rule.media_playlist_tag text.now at) }
{
    if text.len() <= at {
        return Err(Why::MissingByte);
    }
    if text[at] != b'#' {
        return other::uri_line(text, at);
    }
    // no `or_else`: its contract does not say that a closure that is not called leaves the memory as it was
    if let Ok(found) = head_tags::playlist_tag(text, at) {
        return Ok(found);
    }
    media_segment_tag(text, at, memory)
}
