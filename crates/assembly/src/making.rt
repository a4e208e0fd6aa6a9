// The clip in the making, held as the words of its record: what the tags since the last URI said. Words alone, no enum: a reading hands them on at every
// step, and a URI lays them into the table as they are. The flags are bytes, so that their sum fits a word whatever they are.
ghost use Rattle.std.specs.Prelude.{◌≡◌};
ghost use Rattle.text.specs.Answers.{span_of};
ghost use Rattle.lengths.specs.Answers.{extinf_of};
ghost use Rattle.tags.specs.Tags.{timed};
ghost use Rattle.tags.specs.Answers.{clip_tag_of, tag_of};
ghost use Rattle.assembly.specs.Assembly.{empty_segment};
ghost use Rattle.assembly.specs.Inside.Making as rule;
ghost use Rattle.assembly.specs.Inside.Making.{making_seen};

use crate::wording;
use crate::wording::{MapWords, Two};
use lengths::binary32;
use lengths::duration::{Extinf, Length};
use tables::layout;
use tags::{ClipTag, Tag};
use text::Span;

#[derive(Clone, Copy)]
pub struct Making {
    pub length: u64,
    pub title: Two,
    pub range_flags: u8,
    pub break_flags: u8,
    pub map_flags: u8,
    pub range: Two,
    pub map: MapWords,
}

impl Making {
    // Nothing was said: all zeros.
    pub fn empty() -> Making
        ensures { making_seen result ≡ rule.segment_words empty_segment }
    {
        Making {
            length: 0,
            title: wording::part_words(None),
            range_flags: 0,
            break_flags: 0,
            map_flags: 0,
            range: wording::range_words(None),
            map: wording::map_words(None),
        }
    }

    // A length of too many digits changes nothing: the reading refuses it.
    pub fn timed(self, e: Extinf) -> Making
        ensures { making_seen result ≡ rule.told_words (making_seen self) (timed (extinf_of e)) }
    {
        let mut m = self;
        let duration = e.duration;
        let title = e.title;
        match duration {
            Length::Ns(length) => {
                m.length = length;
                m.title = wording::part_words(title);
            }
            Length::TooManyDigits => {}
        }
        m
    }

    // Of a repeated tag the last holds.
    fn told(self, t: ClipTag) -> Making
        ensures { making_seen result ≡ rule.told_words (making_seen self) (clip_tag_of t) }
    {
        let mut m = self;
        match t {
            ClipTag::Timed(e) => return self.timed(e),
            ClipTag::Ranged(r) => {
                let range = Some(r);
                m.range = wording::range_words(range);
                m.range_flags = wording::range_flags(
                    layout::HAS_RANGE as u8,
                    layout::HAS_RANGE_OFFSET as u8,
                    range,
                );
            }
            ClipTag::Discontinuity => m.break_flags = layout::HAS_DISCONTINUITY as u8,
            ClipTag::Mapped(map) => {
                let map = Some(map);
                m.map = wording::map_words(map);
                m.map_flags = wording::map_flags(map);
            }
        }
        m
    }

    // After a tag of any kind. A URI ends the clip, and the next one begins.
    pub fn next(self, t: Tag) -> Making
        ensures { making_seen result ≡ rule.words_after (making_seen self) (tag_of t) }
    {
        match t {
            Tag::Clip(t) => self.told(t),
            Tag::Uri(_) => Making::empty(),
            _ => self,
        }
    }

    // The record of the clip that a URI ends here, with its first unknown tag and how many.
    pub fn clip_words(self, uri: Span, first: usize, count: usize) -> [u64; layout::CLIP_WORDS]
        ensures { result ≡ rule.record_words (span_of uri) (making_seen self) first count }
    {
        let title = self.title;
        let range = self.range;
        let map = self.map;
        let bits = binary32::seconds_bits(self.length);
        let flags = self.range_flags as u64 + self.break_flags as u64 + self.map_flags as u64;
        [
            uri.start as u64,
            uri.end as u64,
            self.length,
            bits,
            title.first,
            title.second,
            flags,
            range.first,
            range.second,
            map.uri_start,
            map.uri_end,
            map.range_length,
            map.range_offset,
            map.list_start,
            map.list_end,
            first as u64,
            count as u64,
        ]
    }
}
