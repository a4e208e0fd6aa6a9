// Whether a media playlist's text may be written: refusals 1, 9 and 10 of the writer, before any byte is written.
#![tactic(auto)]

ghost use Rattle.std.specs.Prelude.{◌≡◌};
ghost use Rattle.assembly.specs.Answers.{head_seen};
ghost use Rattle.playlist.specs.Calls.{write_to};
ghost use Rattle.measure.specs.Leave.{refusals, leave_of};

use assembly::head::Head;
use tables::{Refusal, layout};

mod size; // how many bytes each line takes
mod room; // whether the whole text has room
mod most; // whether it has by far

// What the writer refuses, at place 0, for an output of `room` bytes. The text is measured only where the output is not longer than it could be by far.
pub fn may_write(
    text: &[u8],
    head: Head,
    clips: &[u64],
    clip_count: usize,
    tags: &[u64],
    tag_count: usize,
    room: usize,
) -> Result<(), Refusal>
    ensures { leave_of result ≡ refusals (write_to text.now (head_seen head) clips.now clip_count tags.now tag_count room) }
{
    if layout::TEXT_LIMIT < text.len() {
        return Err(Refusal::TextTooLong);
    }
    if !rule9::keeps_rule(text, head, clips, clip_count, tags, tag_count) {
        return Err(Refusal::BrokenTable);
    }
    if most::whole_left(head, clips, clip_count, tags, tag_count, room).is_some() {
        return Ok(());
    }
    match room::whole_room(head, clips, clip_count, tags, tag_count, room) {
        Some(_) => Ok(()),
        None => Err(Refusal::OutputShort),
    }
}
