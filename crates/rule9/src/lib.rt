// Rule 9 of the writer: counts that fit, spans within the text, lengths with their bits, flags, zeros for what is absent, runs of tags that adjoin.
// One pass over each table, and each function is one clause of the rule. A record's tests are joined by `&`: a table that is to be written passes them
// all, so that none is worth a branch. The count of clips is tested before them, so that the table holds each clip k whole and no word needs a test.
#![tactic(auto)]

ghost use Rattle.std.specs.Prelude.{◌≡◌, ◌&&◌, List, ℕ, ◌*◌, ◌≤◌, ◌<◌, length};
ghost use Rattle.text.specs.Spans.{span_fits};
ghost use Rattle.tables.specs.Layout as layout;
ghost use Rattle.tables.specs.Table.{every, clip_word};
ghost use Rattle.assembly.specs.Answers.{head_seen};
ghost use Rattle.rule9.specs.Rule9 as rule;
ghost use Rattle.rule9.specs.Inside.Held.{Holds, zero_words};

use assembly::head::Head;
use leaves::basic_tags::PlaylistType;
use lengths::binary32;
use tables::{layout, record};

// A type that is another text is a span.
fn head_fits(text: &[u8], head: Head) -> bool
    ensures { result ≡ rule.head_fits text.now (head_seen head) }
{
    match head.playlist_type {
        Some(PlaylistType::Other(s)) => scan::span_fits(text, s.start as u64, s.end as u64),
        _ => true,
    }
}

// A flag only with another.
fn only_with(flags: u64, flag: u64, with: u64) -> bool
    ensures { result ≡ rule.only_with flags flag with }
{
    !record::has_flag(flags, flag) | record::has_flag(flags, with)
}

fn flags_keep(flags: u64) -> bool
    ensures { result ≡ rule.flags_keep flags }
{
    let range_offset = only_with(flags, layout::HAS_RANGE_OFFSET, layout::HAS_RANGE);
    let map_range = only_with(flags, layout::HAS_MAP_RANGE, layout::HAS_MAP);
    let map_offset = only_with(flags, layout::HAS_MAP_OFFSET, layout::HAS_MAP_RANGE);
    (flags < layout::FLAG_LIMIT) & (range_offset & (map_range & map_offset))
}

// Whether clip k's binary32 bits are those of its length, for any table and any k. `plain_keep` asks the same of words that need no test.
pub fn bits_agree(clips: &[u64], k: usize) -> bool
    ensures { result ≡ rule.bits_agree clips.now k }
{
    let length = record::clip_word(clips, k, layout::LENGTH);
    let bits = record::clip_word(clips, k, layout::BITS);
    bits == binary32::seconds_bits(length)
}

// The word at a place of clip k, which the table holds whole: no test is left to make. `measure` and `cliplines` have it too: a public function may ask nothing
// of its callers, and the public one tests its index.
fn held_word(clips: &[u64], k: usize, place: usize) -> u64
    requires holds { Holds clips.now k }
    requires place_lt_clip_words { place < layout.clip_words }
    ensures { result ≡ clip_word clips.now k place }
{
    clips[k * layout::CLIP_WORDS + place]
}

// The span whose words stand at two places of clip k.
fn clip_span_fits(text: &[u8], clips: &[u64], k: usize, start: usize, end: usize) -> bool
    requires holds { Holds clips.now k }
    requires start_lt_clip_words { start < layout.clip_words }
    requires end_lt_clip_words { end < layout.clip_words }
    ensures { result ≡ span_fits text.now (clip_word clips.now k start) (clip_word clips.now k end) }
{
    let from = held_word(clips, k, start);
    let to = held_word(clips, k, end);
    scan::span_fits(text, from, to)
}

// A word of clip k that belongs to a flag: without it the word is zero.
fn zero_without(clips: &[u64], k: usize, flag: u64, place: usize) -> bool
    requires holds { Holds clips.now k }
    requires place_lt_clip_words { place < layout.clip_words }
    ensures { result ≡ rule.zero_without (clip_word clips.now k layout.flags) flag (clip_word clips.now k place) }
{
    let flags = held_word(clips, k, layout::FLAGS);
    let word = held_word(clips, k, place);
    record::has_flag(flags, flag) | (word == 0)
}

// The words that stand for themselves: URI, length, bits, title.
fn plain_keep(text: &[u8], clips: &[u64], k: usize) -> bool
    requires { Holds clips.now k }
    ensures { result ≡ rule.plain_keep text.now clips.now k }
{
    let uri = clip_span_fits(text, clips, k, layout::URI_START, layout::URI_END);
    let length = held_word(clips, k, layout::LENGTH);
    let bits = held_word(clips, k, layout::BITS);
    let nearest = binary32::seconds_bits(length);
    let title = clip_span_fits(text, clips, k, layout::TITLE_START, layout::TITLE_END);
    uri & ((length < layout::LENGTH_LIMIT) & ((bits == nearest) & title))
}

// The words of its range, whatever the text.
fn range_keeps(clips: &[u64], k: usize) -> bool
    requires { Holds clips.now k }
    ensures { (text : List ℕ) → result ≡ rule.range_keeps text clips.now k }
{
    let length = zero_without(clips, k, layout::HAS_RANGE, layout::RANGE_LENGTH);
    let offset = zero_without(clips, k, layout::HAS_RANGE_OFFSET, layout::RANGE_OFFSET);
    length & offset
}

// The words of its map.
fn map_keeps(text: &[u8], clips: &[u64], k: usize) -> bool
    requires { Holds clips.now k }
    ensures { result ≡ rule.map_keeps text.now clips.now k }
{
    let uri = clip_span_fits(text, clips, k, layout::MAP_URI_START, layout::MAP_URI_END);
    let list = clip_span_fits(text, clips, k, layout::MAP_LIST_START, layout::MAP_LIST_END);
    let uri_start = zero_without(clips, k, layout::HAS_MAP, layout::MAP_URI_START);
    let uri_end = zero_without(clips, k, layout::HAS_MAP, layout::MAP_URI_END);
    let list_start = zero_without(clips, k, layout::HAS_MAP, layout::MAP_LIST_START);
    let list_end = zero_without(clips, k, layout::HAS_MAP, layout::MAP_LIST_END);
    let length = zero_without(clips, k, layout::HAS_MAP_RANGE, layout::MAP_RANGE_LENGTH);
    let offset = zero_without(clips, k, layout::HAS_MAP_OFFSET, layout::MAP_RANGE_OFFSET);
    uri & (list & (uri_start & (uri_end & (list_start & (list_end & (length & offset))))))
}

// Whether the words of clip k from place `from` up to, not including, `to` are zeros. Each is looked at: nothing leaves the loop before its end.
fn zero_words(clips: &[u64], k: usize, from: usize, to: usize) -> bool
    requires holds { Holds clips.now k }
    requires from_le_to { (from ≤ to) × (to ≤ layout.clip_words) }
    ensures { result ≡ zero_words clips.now k from to }
{
    let mut zeros = true;
    for place in from..to {
        let word = held_word(clips, k, place);
        zeros = zeros & (word == 0);
    }
    zeros
}

// Most clips have no flag, and then no more is asked of the words of range and map than zeros.
fn clip_keeps(text: &[u8], clips: &[u64], k: usize) -> bool
    requires { Holds clips.now k }
    ensures { result ≡ rule.clip_keeps text.now clips.now k }
{
    let plain = plain_keep(text, clips, k);
    let flags = held_word(clips, k, layout::FLAGS);
    if flags == 0 {
        return plain & zero_words(clips, k, layout::RANGE_LENGTH, layout::FIRST_TAG);
    }
    let kept = flags_keep(flags);
    let range = range_keeps(clips, k);
    let map = map_keeps(text, clips, k);
    plain & (kept & (range & map))
}

fn tag_keeps(text: &[u8], tags: &[u64], k: usize) -> bool
    ensures { result ≡ rule.tag_keeps text.now tags.now k }
{
    let name_start = record::tag_word(tags, k, layout::NAME_START);
    let name_end = record::tag_word(tags, k, layout::NAME_END);
    let rest_start = record::tag_word(tags, k, layout::REST_START);
    let rest_end = record::tag_word(tags, k, layout::REST_END);
    scan::span_fits(text, name_start, name_end) & scan::span_fits(text, rest_start, rest_end)
}

// Each clip, and the runs of their tags. `first` is where the next run begins: a run's count is compared with the tags that are left, so that no table
// makes the sum overflow.
fn clips_keep(text: &[u8], clips: &[u64], clip_count: usize, tag_count: u64) -> bool
    requires { clip_count * layout.clip_words ≤ length clips.now }
    ensures { result ≡ every (rule.clip_keeps text.now clips.now) clip_count && rule.runs_adjoin clips.now clip_count tag_count }
{
    let mut first: u64 = 0;
    for k in 0..clip_count {
        if !clip_keeps(text, clips, k) {
            return false;
        }
        let start = held_word(clips, k, layout::FIRST_TAG);
        if start != first {
            return false;
        }
        let count = held_word(clips, k, layout::TAG_COUNT);
        let left = tag_count - first;
        if left < count {
            return false;
        }
        first += count;
    }
    first == tag_count
}

fn tags_keep(text: &[u8], tags: &[u64], tag_count: usize) -> bool
    ensures { result ≡ every (rule.tag_keeps text.now tags.now) tag_count }
{
    for k in 0..tag_count {
        if !tag_keeps(text, tags, k) {
            return false;
        }
    }
    true
}

// The whole rule. The counts come first: the clips are read without a test of each word, and past the table's end every word of a tag is 0, so that a count
// that does not fit would be walked to its end.
pub fn keeps_rule(
    text: &[u8],
    head: Head,
    clips: &[u64],
    clip_count: usize,
    tags: &[u64],
    tag_count: usize,
) -> bool
    ensures { result ≡ rule.keeps_rule text.now (head_seen head) clips.now clip_count tags.now tag_count }
{
    if !record::clips_fit(clips, clip_count) {
        return false;
    }
    if !record::tags_fit(tags, tag_count) {
        return false;
    }
    if !head_fits(text, head) {
        return false;
    }
    if !clips_keep(text, clips, clip_count, tag_count as u64) {
        return false;
    }
    tags_keep(text, tags, tag_count)
}
