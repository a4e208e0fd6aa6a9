// All starts of a turn in one pass, so that n clips cost n steps: a cursor by value that goes from clip to clip, and a lent table that is filled at once.
#![tactic(auto)]

pub mod table; // into a lent table

ghost use Rattle.std.specs.Prelude.{◌≡◌};
ghost use Rattle.starts.specs.Starts as rule;
ghost use Rattle.starts.specs.Answers.{cursor_of, opened_of, step_of};

use tables::{Refusal, layout, record};

// Where a pass stands: the next clip, and the sum of the lengths before it. The other fields stay as `new` made them.
#[derive(Clone, Copy)]
pub struct Starts {
    pub clips: usize,
    pub rate: u64,
    pub turn: u64,
    pub total: u64,
    pub clip: usize,
    pub before: u64,
}

// A clip's line in the turn sheet: its number, its start and length in ns, its start tick.
#[derive(Clone, Copy)]
pub struct Row {
    pub clip: usize,
    pub start: u64,
    pub length: u64,
    pub tick: u64,
}

impl Starts {
    // A cursor before the first clip.
    pub fn new(words: &[u64], clips: usize, rate: u64, turn: u64) -> Result<Starts, Refusal>
        ensures { opened_of result ≡ rule.starts words.now clips rate turn }
    {
        let total = clock::in_turn(words, clips, rate, turn)?;
        Ok(Starts {
            clips,
            rate,
            turn,
            total,
            clip: 0,
            before: 0,
        })
    }

    // Whether a step over this length stays in the clock's limits. From `new` on, over the same words, it does.
    fn in_limits(self, length: u64) -> bool
        ensures { result ≡ rule.in_limits (cursor_of self) length }
    {
        if clock::LARGEST_RATE < self.rate
            || clock::LAST_TURN < self.turn
            || clock::LARGEST_TOTAL < self.total
            || self.total < self.before
        {
            return false;
        }
        length <= self.total - self.before
    }

    // The next clip and the cursor after it. Words that are not those of `new` are refused where they pass the total.
    // From cursor to cursor and no `Iterator`: the public form, which `docs/PROMISES.md` names, is lent the words again at each step.
    pub fn next(self, words: &[u64]) -> Result<Option<(Row, Starts)>, Refusal>
        ensures { step_of result ≡ rule.next words.now (cursor_of self) }
    {
        let clip = self.clip;
        let before = self.before;
        if self.clips <= clip {
            return Ok(None);
        }
        let length = record::clip_word(words, clip, layout::LENGTH);
        if !self.in_limits(length) {
            return Err(Refusal::BrokenTable);
        }
        let row = Row {
            clip,
            start: before,
            length,
            tick: clock::tick_at(self.turn, self.total, before, self.rate),
        };
        let after = Starts {
            clip: clip + 1,
            before: before + length,
            ..self
        };
        Ok(Some((row, after)))
    }
}
