// Two passes over the steps: the first counts and refuses, the second fills the lent tables in order.
ghost use Rattle.std.specs.Prelude.{◌≡◌, ◌+◌, ◌<◌, ◌^◌};
ghost use Rattle.std.proofs.Math.Option.{none};
ghost use Rattle.text.specs.Answers.{span_of};
ghost use Rattle.leaves.specs.Answers.{ext_tag_of};
ghost use Rattle.chains.specs.Inside.Kept.{RemembersMaps};
ghost use Rattle.tags.specs.Tags.{unknown, uri, step};
ghost use Rattle.tags.specs.Answers.{tag_of};
ghost use Rattle.media.specs.Calls.{first_step};
ghost use Rattle.media.specs.Inside.Passes as rule;
ghost use Rattle.media.specs.Inside.Passes.{state_seen, counted_of};

use crate::Read;
use crate::state::{Counts, State};
use assembly::head::Head;
use assembly::wording;
use chains::ext_map::MAP_MEMORY;
use leaves::basic_tags::ExtTag;
use steps::common;
use steps::common::{Line, LineEnd};
use tables::{Refusal, Refused, record};
use tags::{HeadTag, Tag};
use text::Span;

// Where the first step begins, in both passes: behind `#EXTM3U` and the blanks after it.
pub(crate) fn first_step(text: &[u8]) -> usize
    ensures { result ≡ first_step text.now }
{
    blocks::multispace0(text, 7)
}

// What a step of the first pass came to: the reading stops, or is refused, or goes on with the next counts, and perhaps with something told of the head.
// Four ways on, by name: as a Result of an Option of counts with an Option of a tag they would be told apart by depth.
#[derive(Clone, Copy)]
pub enum CountStep {
    Stop,
    Refused(Refusal),
    Next(Counts),
    Told(HeadTag, Counts),
}

// A tag that is no EXTINF: a left-out one is refused, and one of the head is handed on, as the head stands beside the counts.
fn counted_on(t: Tag, next: Counts) -> CountStep
    requires { rule.timed_in (tag_of t) ≡ none }
    ensures { rule.OnSays result (tag_of t) next }
{
    match t {
        Tag::LeftOut(_) => CountStep::Refused(Refusal::LeftOutTag),
        Tag::Head(h) => CountStep::Told(h, next),
        _ => CountStep::Next(next),
    }
}

impl Counts {
    // One step of the first pass: a tag, and the blanks after it. The memory is of the MAP lists that were read before.
    pub(crate) fn step(self, text: &[u8], memory: &mut [u64]) -> CountStep
        requires counting { rule.Counting self }
        requires remembers_maps { RemembersMaps text.now memory.old }
        ensures count_says { rule.CountSays step result self text.now }
        ensures remembers_maps_2 { RemembersMaps text.now memory.new }
    {
        let mut c = self;
        match common::common_end(text, c.at) {
            LineEnd::Uri(after) => {
                let next = blocks::multispace0(text, after);
                CountStep::Next(c.after_uri(next))
            }
            LineEnd::Extinf(too_many, after) => {
                if too_many {
                    return CountStep::Refused(Refusal::TooManyDigits);
                }
                c.at = blocks::multispace0(text, after);
                CountStep::Next(c)
            }
            LineEnd::Other => match steps::media_playlist_tag(text, c.at, memory) {
                Err(_) => CountStep::Stop,
                Ok((t, after)) => {
                    let next = blocks::multispace0(text, after);
                    counted_on(t, c.next(t, next))
                }
            },
        }
    }
}

// What the first pass finds: a refusal at its `#`, or what there is to give.
pub(crate) fn count(text: &[u8], at: usize) -> Result<Read, Refused>
    requires { at ≡ first_step text.now }
    ensures { counted_of result ≡ rule.first_pass step text.now }
{
    let mut c = Counts::new(at);
    let mut head = Head::empty();
    let mut memory = [0; MAP_MEMORY]; // no list was read yet
    loop {
        match c.step(text, &mut memory) {
            CountStep::Stop => {
                return Ok(c.read(head));
            }
            CountStep::Refused(r) => {
                return Err(Refused {
                    refusal: r,
                    place: c.at,
                });
            }
            CountStep::Next(next) => {
                c = next;
            }
            CountStep::Told(t, next) => {
                head = head.next(t);
                c = next;
            }
        }
    }
}

impl State {
    // Stores the clip that a URI ends.
    fn put_clip(self, clips: &mut [u64], u: Span)
        ensures { clips.new ≡ rule.clips_put (state_seen self) (uri (span_of u)) clips.old }
    {
        let c = self.counts;
        let m = self.making;
        let values = m.clip_words(u, c.first, c.pending);
        record::store_clip(clips, c.clips, &values);
    }

    // Stores an unknown tag if a clip follows it: `kept` such tags there are.
    fn put_tag(self, tags: &mut [u64], t: ExtTag, kept: usize)
        requires { self.counts.first + self.counts.pending < 2 ^ 64 }
        ensures { tags.new ≡ rule.tags_put (state_seen self) kept (unknown (ext_tag_of t)) tags.old }
    {
        let met = self.counts.first + self.counts.pending;
        if met < kept {
            let values = wording::tag_words(t);
            record::store_tag(tags, met, &values);
        }
    }

    // Stores what a tag adds to the tables: a URI its clip, an unknown tag itself.
    fn put(self, clips: &mut [u64], tags: &mut [u64], t: Tag, kept: usize)
        requires { self.counts.first + self.counts.pending < 2 ^ 64 }
        ensures clips_after { clips.new ≡ rule.clips_put (state_seen self) (tag_of t) clips.old }
        ensures tags_after { tags.new ≡ rule.tags_put (state_seen self) kept (tag_of t) tags.old }
    {
        match t {
            Tag::Uri(u) => self.put_clip(clips, u),
            Tag::Unknown(t) => self.put_tag(tags, t, kept),
            _ => {}
        }
    }

    // One step of the second pass: a tag, and the blanks after it; none where the reading stops. What the tag adds to the tables is stored. The memory is as in
    // the first pass.
    fn step(
        self,
        text: &[u8],
        clips: &mut [u64],
        tags: &mut [u64],
        kept: usize,
        memory: &mut [u64],
    ) -> Option<State>
        requires counting { rule.Counting self.counts }
        requires remembers_maps { RemembersMaps text.now memory.old }
        ensures step_says { rule.StepSays step result self text.now kept clips.old tags.old clips.new tags.new }
        ensures remembers_maps_2 { RemembersMaps text.now memory.new }
    {
        let at = self.counts.at;
        match common::common_line(text, at) {
            Line::Uri(u, after) => {
                self.put_clip(clips, u);
                let next = blocks::multispace0(text, after);
                Some(self.after_uri(next))
            }
            Line::Extinf(e, after) => {
                let next = blocks::multispace0(text, after);
                Some(self.after_extinf(e, next))
            }
            Line::Other => match steps::media_playlist_tag(text, at, memory) {
                Err(_) => None,
                Ok((t, after)) => {
                    self.put(clips, tags, t, kept);
                    let next = blocks::multispace0(text, after);
                    Some(self.next(t, next))
                }
            },
        }
    }
}

// The second pass: each clip to the table of clips, and the first `kept` unknown tags to theirs.
pub(crate) fn fill(text: &[u8], at: usize, clips: &mut [u64], tags: &mut [u64], kept: usize)
    requires at_value { at ≡ first_step text.now }
    requires fillable { rule.Fillable step text.now kept clips.old tags.old }
    ensures { rule.Filled step text.now kept clips.old tags.old clips.new tags.new }
{
    let mut s = State::new(at);
    let mut memory = [0; MAP_MEMORY];
    while let Some(next) = s.step(text, clips, tags, kept, &mut memory) {
        s = next;
    }
}
