// A clip and an unknown tag by value, out of their words: the way back from what a reading stored.
// `clip_at` and `tag_at` answer for every table and every record: a word that the table does not have is 0.
#![tactic(auto)]

ghost use Rattle.std.specs.Prelude.{◌≡◌, ◌<◌};
ghost use Rattle.text.specs.Nom.{span};
ghost use Rattle.text.specs.Answers.{span_of, part_of};
ghost use Rattle.leaves.specs.Answers.{offset_of, ext_tag_of};
ghost use Rattle.attributes.specs.Answers.{opt_range_of};
ghost use Rattle.tables.specs.Layout as layout;
ghost use Rattle.tables.specs.Table.{clip_word, has_flag};
ghost use Rattle.assembly.specs.Answers.{segment_map_of, clip_seen};
ghost use Rattle.records.specs.Records as rule;

use assembly::Clip;
use assembly::segment::Segment;
use attributes::ext_map::Map;
use leaves::basic_tags::ExtTag;
use leaves::util::ByteRange;
use tables::{layout, record};
use text::Span;

// A title or a rest is there unless both its words are zero.
fn part_at(start: u64, end: u64) -> Option<Span>
    ensures { part_of result ≡ rule.part_at start end }
{
    if start == 0 {
        if end == 0 {
            return None;
        }
    }
    Some(Span {
        start: start as usize,
        end: end as usize,
    })
}

fn offset_at(flags: u64, flag: u64, offset: u64) -> Option<u64>
    ensures { offset_of result ≡ rule.optional (has_flag flags flag) offset }
{
    record::has_flag(flags, flag).then_some(offset)
}

// `present` is the flag of the range, `with_offset` that of its offset.
fn range_at(
    flags: u64,
    present: u64,
    with_offset: u64,
    length: u64,
    offset: u64,
) -> Option<ByteRange>
    ensures { opt_range_of result ≡ rule.range_at flags present with_offset length offset }
{
    if !record::has_flag(flags, present) {
        return None;
    }
    let offset = offset_at(flags, with_offset, offset);
    Some(ByteRange { length, offset })
}

// The span whose words stand at two places of a clip. A clip's words alone are a table of one clip.
fn clip_span(words: &[u64; layout::CLIP_WORDS], start: usize, end: usize) -> Span
    requires start_lt_clip_words { start < layout.clip_words }
    requires end_lt_clip_words { end < layout.clip_words }
    ensures { span_of result ≡ span (clip_word words.now 0 start) (clip_word words.now 0 end) }
{
    let from = words[start];
    let to = words[end];
    Span {
        start: from as usize,
        end: to as usize,
    }
}

fn map_at(words: &[u64; layout::CLIP_WORDS]) -> Option<Map>
    ensures { segment_map_of result ≡ rule.map_at words.now 0 }
{
    let flags = words[layout::FLAGS];
    if !record::has_flag(flags, layout::HAS_MAP) {
        return None;
    }
    let uri = clip_span(words, layout::MAP_URI_START, layout::MAP_URI_END);
    let list = clip_span(words, layout::MAP_LIST_START, layout::MAP_LIST_END);
    let length = words[layout::MAP_RANGE_LENGTH];
    let offset = words[layout::MAP_RANGE_OFFSET];
    let byte_range = range_at(
        flags,
        layout::HAS_MAP_RANGE,
        layout::HAS_MAP_OFFSET,
        length,
        offset,
    );
    Some(Map {
        uri,
        byte_range,
        list,
    })
}

fn title_at(words: &[u64; layout::CLIP_WORDS]) -> Option<Span>
    ensures { part_of result ≡ rule.part_at (clip_word words.now 0 layout.title_start) (clip_word words.now 0 layout.title_end) }
{
    let start = words[layout::TITLE_START];
    let end = words[layout::TITLE_END];
    part_at(start, end)
}

// A clip out of its words.
fn clip_of(words: &[u64; layout::CLIP_WORDS]) -> Clip
    ensures { clip_seen result ≡ rule.clip_at words.now 0 }
{
    let uri = clip_span(words, layout::URI_START, layout::URI_END);
    let title = title_at(words);
    let flags = words[layout::FLAGS];
    let length = words[layout::RANGE_LENGTH];
    let offset = words[layout::RANGE_OFFSET];
    let byte_range = range_at(
        flags,
        layout::HAS_RANGE,
        layout::HAS_RANGE_OFFSET,
        length,
        offset,
    );
    let map = map_at(words);
    let segment = Segment {
        length: words[layout::LENGTH],
        title,
        byte_range,
        discontinuity: record::has_flag(flags, layout::HAS_DISCONTINUITY),
        map,
    };
    let first = words[layout::FIRST_TAG];
    let count = words[layout::TAG_COUNT];
    Clip {
        uri,
        segment,
        first: first as usize,
        count: count as usize,
    }
}

// Clip k of a table.
pub fn clip_at(clips: &[u64], k: usize) -> Clip
    ensures { clip_seen result ≡ rule.clip_at clips.now k }
{
    let words = record::clip_words(clips, k);
    clip_of(&words)
}

// Unknown tag k of a table.
pub fn tag_at(tags: &[u64], k: usize) -> ExtTag
    ensures { ext_tag_of result ≡ rule.tag_at tags.now k }
{
    let start = record::tag_word(tags, k, layout::NAME_START);
    let end = record::tag_word(tags, k, layout::NAME_END);
    let rest_start = record::tag_word(tags, k, layout::REST_START);
    let rest_end = record::tag_word(tags, k, layout::REST_END);
    let rest = part_at(rest_start, rest_end);
    ExtTag {
        tag: Span {
            start: start as usize,
            end: end as usize,
        },
        rest,
    }
}
