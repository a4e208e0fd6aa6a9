// The state of a reading, by value. The first pass needs the counts alone, the second the clip in the making beside them.
ghost use Rattle.std.specs.Prelude.{◌≡◌, ◌+◌, ◌<◌, ◌^◌};
ghost use Rattle.text.specs.Nom as nom;
ghost use Rattle.lengths.specs.Answers.{extinf_of};
ghost use Rattle.tags.specs.Tags as tags;
ghost use Rattle.tags.specs.Answers.{tag_of};
ghost use Rattle.assembly.specs.Assembly as rule;
ghost use Rattle.assembly.specs.Answers.{head_seen};
ghost use Rattle.media.specs.Calls as calls;
ghost use Rattle.media.specs.Answers.{read_seen};
ghost use Rattle.media.specs.Inside.Passes as inside;
ghost use Rattle.media.specs.Inside.Passes.{counts_seen, state_seen};

use crate::Read;
use assembly::head::Head;
use assembly::making::Making;
use lengths::duration::Extinf;
use tags::Tag;

// Where the next step begins; how many clips there are, how many unknown tags these have, and how many came since.
#[derive(Clone, Copy)]
pub struct Counts {
    pub at: usize,
    pub clips: usize,
    pub first: usize,
    pub pending: usize,
}

// The counts, and the clip in the making.
#[derive(Clone, Copy)]
pub struct State {
    pub counts: Counts,
    pub making: Making,
}

impl Counts {
    pub(crate) fn new(at: usize) -> Counts
        ensures { (result.at ≡ at) × (counts_seen result ≡ rule.counts_of rule.begin) }
    {
        Counts {
            at,
            clips: 0,
            first: 0,
            pending: 0,
        }
    }

    // The counts after a URI, which ended at `at`.
    pub(crate) fn after_uri(self, at: usize) -> Counts
        requires { (self.clips + 1 < 2 ^ 64) × (self.first + self.pending < 2 ^ 64) }
        ensures { (result.at ≡ at) × ((u : nom.Span) → counts_seen result ≡ rule.counts_after (counts_seen self) (tags.uri u)) }
    {
        Counts {
            at,
            clips: self.clips + 1,
            first: self.first + self.pending,
            pending: 0,
        }
    }

    // The counts after a tag, which ended at `at`. Each tag takes bytes, so that no count passes the text's length.
    pub(crate) fn next(self, t: Tag, at: usize) -> Counts
        requires { (self.clips + 1 < 2 ^ 64) × (self.first + self.pending + 1 < 2 ^ 64) }
        ensures { (result.at ≡ at) × (counts_seen result ≡ rule.counts_after (counts_seen self) (tag_of t)) }
    {
        let mut c = self;
        c.at = at;
        match t {
            Tag::Unknown(_) => c.pending += 1,
            Tag::Uri(_) => return self.after_uri(at),
            _ => {}
        }
        c
    }

    // What there is to give where the reading stops.
    pub(crate) fn read(self, head: Head) -> Read
        ensures { read_seen result ≡ calls.read (head_seen head) self.clips self.first self.at }
    {
        Read {
            head,
            clips: self.clips,
            tags: self.first,
            stop: self.at,
        }
    }
}

impl State {
    pub(crate) fn new(at: usize) -> State
        ensures { (result.counts.at ≡ at) × (state_seen result ≡ inside.held_of rule.begin) }
    {
        let counts = Counts::new(at);
        let making = Making::empty();
        State { counts, making }
    }

    // The state after a URI, which ended at `at`: the next clip begins.
    pub(crate) fn after_uri(self, at: usize) -> State
        requires { (self.counts.clips + 1 < 2 ^ 64) × (self.counts.first + self.counts.pending < 2 ^ 64) }
        ensures { (result.counts.at ≡ at) × ((u : nom.Span) → state_seen result ≡ inside.held_after (state_seen self) (tags.uri u)) }
    {
        let counts = self.counts;
        let counts = counts.after_uri(at);
        let making = Making::empty();
        State { counts, making }
    }

    // After an EXTINF, which ended at `at`.
    pub(crate) fn after_extinf(self, e: Extinf, at: usize) -> State
        ensures { (result.counts.at ≡ at) × (state_seen result ≡ inside.held_after (state_seen self) (tags.of_clip (tags.timed (extinf_of e)))) }
    {
        let mut counts = self.counts;
        counts.at = at;
        let making = self.making;
        let making = making.timed(e);
        State { counts, making }
    }

    // After a tag of any kind, which ended at `at`.
    pub(crate) fn next(self, t: Tag, at: usize) -> State
        requires { (self.counts.clips + 1 < 2 ^ 64) × (self.counts.first + self.counts.pending + 1 < 2 ^ 64) }
        ensures { (result.counts.at ≡ at) × (state_seen result ≡ inside.held_after (state_seen self) (tag_of t)) }
    {
        let counts = self.counts;
        let counts = counts.next(t, at);
        let making = self.making;
        let making = making.next(t);
        State { counts, making }
    }
}
