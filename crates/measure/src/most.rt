// What clips leave of an output's room at least, told by their spans and flags: no digit is counted. Most outputs are longer than the text by far, and then it need
// not be measured.
ghost use Rattle.std.specs.Prelude.{◌≡◌, ◌+◌, ◌*◌, ◌≤◌, ◌<◌, length};
ghost use Rattle.tables.specs.Layout as layout;
ghost use Rattle.tables.specs.Layout.{text_limit};
ghost use Rattle.tables.specs.Table.{clip_word};
ghost use Rattle.assembly.specs.Answers.{head_type_of, head_seen};
ghost use Rattle.records.specs.Records.{clip_at, clips_at};
ghost use Rattle.rule9.specs.Inside.Held.{Holds};
ghost use Rattle.measure.specs.Inside.Below.{TypeBelow, TagsBelow, RunsWithin, WordsBelow, TableBelow};
ghost use Rattle.measure.specs.Inside.Sizes.{clip_size, full_size, clips_size, whole_size};
ghost use Rattle.measure.specs.Inside.Room.{room_of, Leaves};

use crate::{room, size};
use assembly::head::Head;
use tables::{layout, record};

// The lines of length and URI with the longest length, but for title and URI.
const PLAIN_MOST: usize = 30;

// A byte range's line with the longest numbers.
const RANGE_MOST: usize = 61;

// A map's line with the longest range, but for its URI.
const MAP_MOST: usize = 74;

// The word at a place of clip k, which the table holds whole.
// (Each crate has its own: a public function may ask nothing of its callers, and the public one tests its index.)
fn held_word(clips: &[u64], k: usize, place: usize) -> u64
    requires holds { Holds clips.now k }
    requires place_lt_clip_words { place < layout.clip_words }
    ensures { result ≡ clip_word clips.now k place }
{
    clips[k * layout::CLIP_WORDS + place]
}

// How many bytes the span takes whose words stand at two places of clip k.
fn span_most(clips: &[u64], k: usize, start: usize, end: usize) -> usize
    requires holds { Holds clips.now k }
    requires start_lt_clip_words { start < layout.clip_words }
    requires end_lt_clip_words { end < layout.clip_words }
    requires start_bound { clip_word clips.now k start ≤ clip_word clips.now k end }
    ensures { clip_word clips.now k start + result ≡ clip_word clips.now k end }
{
    let from = held_word(clips, k, start);
    let to = held_word(clips, k, end);
    (to - from) as usize
}

// No less than the lines of clip k take, but those of its unknown tags.
fn clip_most(clips: &[u64], k: usize) -> usize
    requires holds { Holds clips.now k }
    requires words_below { WordsBelow text_limit clips.now k }
    ensures { clip_size (clip_at clips.now k) ≤ result }
{
    let uri = span_most(clips, k, layout::URI_START, layout::URI_END);
    let title = span_most(clips, k, layout::TITLE_START, layout::TITLE_END);
    let map_uri = span_most(clips, k, layout::MAP_URI_START, layout::MAP_URI_END);
    let flags = held_word(clips, k, layout::FLAGS);
    let range = size::mark_size(RANGE_MOST, record::has_flag(flags, layout::HAS_RANGE));
    let mark = size::mark_size(
        size::DISCONTINUITY_LINE,
        record::has_flag(flags, layout::HAS_DISCONTINUITY),
    );
    let map = size::mark_size(MAP_MOST, record::has_flag(flags, layout::HAS_MAP));
    PLAIN_MOST + uri + title + map_uri + range + mark + map
}

// After clip k.
fn clip_left(clips: &[u64], k: usize, tags: &[u64], tag_count: usize, room: usize) -> Option<usize>
    requires holds { Holds clips.now k }
    requires words_below { WordsBelow text_limit clips.now k }
    requires tag_count_bound { clip_word clips.now k layout.first_tag + clip_word clips.now k layout.tag_count ≤ tag_count }
    requires tags_below { TagsBelow text_limit tags.now tag_count }
    ensures { Leaves room (full_size tags.now (clip_at clips.now k)) (room_of result) }
{
    let left = room.checked_sub(clip_most(clips, k))?;
    let first = held_word(clips, k, layout::FIRST_TAG);
    let count = held_word(clips, k, layout::TAG_COUNT);
    room::tags_room(tags, first as usize, count as usize, left)
}

// After all clips.
fn clips_left(
    clips: &[u64],
    clip_count: usize,
    tags: &[u64],
    tag_count: usize,
    room: usize,
) -> Option<usize>
    requires clip_words_in_bounds { clip_count * layout.clip_words ≤ length clips.now }
    requires table_below { TableBelow text_limit clips.now clip_count }
    requires runs_within { RunsWithin clips.now clip_count tag_count }
    requires tags_below { TagsBelow text_limit tags.now tag_count }
    ensures { Leaves room (clips_size tags.now (clips_at clips.now clip_count)) (room_of result) }
{
    let mut left = room;
    for k in 0..clip_count {
        left = clip_left(clips, k, tags, tag_count, left)?;
    }
    Some(left)
}

// After the whole text.
pub(crate) fn whole_left(
    h: Head,
    clips: &[u64],
    clip_count: usize,
    tags: &[u64],
    tag_count: usize,
    room: usize,
) -> Option<usize>
    requires type_below { TypeBelow text_limit (head_type_of h.playlist_type) }
    requires clip_words_in_bounds { clip_count * layout.clip_words ≤ length clips.now }
    requires table_below { TableBelow text_limit clips.now clip_count }
    requires runs_within { RunsWithin clips.now clip_count tag_count }
    requires tags_below { TagsBelow text_limit tags.now tag_count }
    ensures { Leaves room (whole_size (head_seen h) clips.now clip_count tags.now) (room_of result) }
{
    let head = size::head_size(h);
    let end = size::mark_size(size::END_LINE, h.end_list);
    let left = room.checked_sub(head + end)?;
    clips_left(clips, clip_count, tags, tag_count, left)
}
