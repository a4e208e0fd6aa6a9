// What the tags of a playlist make (parser.rs, `media_playlist_from_tags`): its head, and its clips, by value and as the words of their records.
#![tactic(auto)]

use crate::segment::Segment;
use text::Span;

pub mod head; // version, target, sequences, type, marks
pub mod segment; // a clip's tags by value
pub mod wording; // the words of a record
pub mod making; // the clip in the making, as words

// A clip by value: its URI, what its tags said, its first unknown tag and how many.
#[derive(Clone, Copy)]
pub struct Clip {
    pub uri: Span,
    pub segment: Segment,
    pub first: usize,
    pub count: usize,
}
