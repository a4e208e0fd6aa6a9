// What is left of an output's room after each part of the text, before any of it is written. Lengths are taken from the room and never added up, so that no
// table makes a sum overflow.
ghost use Rattle.std.specs.Prelude.{◌≡◌, ◌+◌, ◌^◌, ◌≤◌, ◌<◌};
ghost use Rattle.tables.specs.Table.{listed};
ghost use Rattle.tables.specs.Layout.{text_limit};
ghost use Rattle.assembly.specs.Answers.{head_type_of, head_seen, clip_seen};
ghost use Rattle.records.specs.Records.{tag_at, clips_at};
ghost use Rattle.measure.specs.Inside.Below.{TypeBelow, ClipBelow, TagsBelow, ClipsBelow, RunsWithin};
ghost use Rattle.measure.specs.Inside.Sizes.{tags_size, full_size, clips_size, whole_size};
ghost use Rattle.measure.specs.Inside.Room.{room_for, room_of};

use crate::size;
use assembly::Clip;
use assembly::head::Head;

// After `count` unknown tags from tag `first` on.
pub(crate) fn tags_room(tags: &[u64], first: usize, count: usize, room: usize) -> Option<usize>
    requires count_bound { first + count < 2 ^ 64 }
    requires tags_below { TagsBelow text_limit tags.now (first + count) }
    ensures { room_of result ≡ room_for room (tags_size (listed (tag_at tags.now) first count)) }
{
    let end = first + count;
    let mut left = room;
    for k in first..end {
        let t = records::tag_at(tags, k);
        left = left.checked_sub(size::tag_size(t))?;
    }
    Some(left)
}

// After one clip.
fn clip_room(tags: &[u64], tag_count: usize, c: Clip, room: usize) -> Option<usize>
    requires count_bound { c.first + c.count ≤ tag_count }
    requires tags_below { TagsBelow text_limit tags.now tag_count }
    requires clip_below { ClipBelow text_limit (clip_seen c) }
    ensures { room_of result ≡ room_for room (full_size tags.now (clip_seen c)) }
{
    let left = room.checked_sub(size::clip_size(c))?;
    tags_room(tags, c.first, c.count, left)
}

// After all clips.
fn clips_room(
    clips: &[u64],
    clip_count: usize,
    tags: &[u64],
    tag_count: usize,
    room: usize,
) -> Option<usize>
    requires runs_within { RunsWithin clips.now clip_count tag_count }
    requires tags_below { TagsBelow text_limit tags.now tag_count }
    requires clips_below { ClipsBelow text_limit clips.now clip_count }
    ensures { room_of result ≡ room_for room (clips_size tags.now (clips_at clips.now clip_count)) }
{
    let mut left = room;
    for k in 0..clip_count {
        let c = records::clip_at(clips, k);
        left = clip_room(tags, tag_count, c, left)?;
    }
    Some(left)
}

// After the whole text.
pub(crate) fn whole_room(
    h: Head,
    clips: &[u64],
    clip_count: usize,
    tags: &[u64],
    tag_count: usize,
    room: usize,
) -> Option<usize>
    requires type_below { TypeBelow text_limit (head_type_of h.playlist_type) }
    requires runs_within { RunsWithin clips.now clip_count tag_count }
    requires tags_below { TagsBelow text_limit tags.now tag_count }
    requires clips_below { ClipsBelow text_limit clips.now clip_count }
    ensures { room_of result ≡ room_for room (whole_size (head_seen h) clips.now clip_count tags.now) }
{
    let head = size::head_size(h);
    let end = size::mark_size(size::END_LINE, h.end_list);
    let left = room.checked_sub(head + end)?;
    clips_room(clips, clip_count, tags, tag_count, left)
}
