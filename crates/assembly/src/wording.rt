// The words of a record, in the order of the layout. What is absent is zeros.
ghost use Rattle.std.specs.Prelude.{◌≡◌, [], ◌∷◌, ◌+◌, ◌<◌};
ghost use Rattle.text.specs.Answers.{part_of};
ghost use Rattle.leaves.specs.Answers.{ext_tag_of};
ghost use Rattle.attributes.specs.Answers.{opt_range_of};
ghost use Rattle.tables.specs.Layout.{flag_limit};
ghost use Rattle.assembly.specs.Words as rule;
ghost use Rattle.assembly.specs.Answers.{segment_map_of};

use attributes::ext_map::Map;
use leaves::basic_tags::ExtTag;
use leaves::util::ByteRange;
use tables::layout;
use text::Span;

// A part's start and end, or a range's length and offset.
#[derive(Clone, Copy)]
pub struct Two {
    pub first: u64,
    pub second: u64,
}

pub(crate) fn part_words(p: Option<Span>) -> Two
    ensures { result.first ∷ result.second ∷ [] ≡ rule.part_words (part_of p) }
{
    match p {
        Some(s) => Two {
            first: s.start as u64,
            second: s.end as u64,
        },
        None => Two {
            first: 0,
            second: 0,
        },
    }
}

pub(crate) fn range_words(r: Option<ByteRange>) -> Two
    ensures { result.first ∷ result.second ∷ [] ≡ rule.range_words (opt_range_of r) }
{
    match r {
        Some(range) => Two {
            first: range.length,
            second: range.offset.unwrap_or(0),
        },
        None => Two {
            first: 0,
            second: 0,
        },
    }
}

#[derive(Clone, Copy)]
pub struct MapWords {
    pub uri_start: u64,
    pub uri_end: u64,
    pub range_length: u64,
    pub range_offset: u64,
    pub list_start: u64,
    pub list_end: u64,
}

pub(crate) fn map_words(m: Option<Map>) -> MapWords
    ensures { result.uri_start ∷ result.uri_end ∷ result.range_length ∷ result.range_offset ∷ result.list_start ∷ result.list_end ∷ [] ≡ rule.map_words (segment_map_of m) }
{
    match m {
        Some(m) => {
            let uri = m.uri;
            let list = m.list;
            let range = m.byte_range;
            let range = range_words(range);
            MapWords {
                uri_start: uri.start as u64,
                uri_end: uri.end as u64,
                range_length: range.first,
                range_offset: range.second,
                list_start: list.start as u64,
                list_end: list.end as u64,
            }
        }
        None => MapWords {
            uri_start: 0,
            uri_end: 0,
            range_length: 0,
            range_offset: 0,
            list_start: 0,
            list_end: 0,
        },
    }
}

// `present` tells of a range, `offset` of its offset.
pub(crate) fn range_flags(present: u8, offset: u8, r: Option<ByteRange>) -> u8
    requires { present + offset < flag_limit }
    ensures { result ≡ rule.range_flags present offset (opt_range_of r) }
{
    match r {
        Some(range) => match range.offset {
            Some(_) => present + offset,
            None => present,
        },
        None => 0,
    }
}

pub(crate) fn map_flags(m: Option<Map>) -> u8
    ensures { result ≡ rule.map_flags (segment_map_of m) }
{
    match m {
        Some(m) => {
            let range = m.byte_range;
            layout::HAS_MAP as u8
                + range_flags(
                    layout::HAS_MAP_RANGE as u8,
                    layout::HAS_MAP_OFFSET as u8,
                    range,
                )
        }
        None => 0,
    }
}

pub fn tag_words(t: ExtTag) -> [u64; layout::TAG_WORDS]
    ensures { result ≡ rule.tag_words_of (ext_tag_of t) }
{
    let name = t.tag;
    let rest = t.rest;
    let rest = part_words(rest);
    [name.start as u64, name.end as u64, rest.first, rest.second]
}
