// The exact clock over a lent table of clip records: totals, starts and ticks in whole numbers, cut to a tick once, at the end.
// Each call answers for every table and every number: the count is compared without overflow, and the sum stops at its limit.
// Words and count come apart, as the C interface has them: any count may come with any words, so that a struct of both would promise nothing.
#![tactic(auto)]

pub mod turns; // starts and lengths in ticks of a turn

ghost use Rattle.std.specs.Prelude.{◌≡◌, ◌+◌, ◌*◌, ◌≤◌, min};
ghost use Rattle.tables.specs.Refusal.{given};
ghost use Rattle.clock.specs.Clock as clock;
ghost use Rattle.clock.specs.Calls as rule;
ghost use Rattle.clock.specs.Answers.{answer_of};
ghost use Rattle.clock.specs.Inside.Ticks as inside;

use tables::layout::SECOND;
use tables::{Refusal, layout, record};

pub const LARGEST_TOTAL: u64 = 1_000_000_000_000_000;

const SMALLEST_RATE: u64 = 1;

pub const LARGEST_RATE: u64 = 90_000;

pub const LAST_TURN: u64 = 999_999;

// How many turns there are. The last one ends where the turn of this number would start.
pub const TURNS: u64 = LAST_TURN + 1;

// One length more. The sum stops just above the largest total, so that no table makes it overflow.
fn added(sum: u64, length: u64) -> u64
    ensures { result ≡ min (sum + length) (clock.largest_total + 1) }
{
    sum.saturating_add(length).min(LARGEST_TOTAL + 1)
}

// The sum of the first lengths, as far as `added` goes.
fn sum_upto(words: &[u64], clips: usize) -> u64
    ensures { result ≡ min (clock.sum_lengths words.now clips) (clock.largest_total + 1) }
{
    let mut sum = 0u64;
    for k in 0..clips {
        sum = added(sum, record::clip_word(words, k, layout::LENGTH));
    }
    sum
}

// The tick of the moment turn x whole + before, which may be above 2^64 ns: its seconds and the ns left over are multiplied apart.
fn tick_of(turn: u64, whole: u64, before: u64, rate: u64) -> u64
    requires { (turn ≤ clock.turns) × (whole ≤ clock.largest_total) × (before ≤ whole) × (rate ≤ clock.largest_rate) }
    ensures { result ≡ clock.tick_of (turn * whole + before) rate }
{
    let rest = turn * (whole % SECOND) + before;
    let seconds = turn * (whole / SECOND) + rest / SECOND;
    let nanos = rest % SECOND;
    seconds * rate + nanos * rate / SECOND
}

// The same for any numbers: 0 past the clock's limits, where no call asks for it.
pub fn tick_at(turn: u64, whole: u64, before: u64, rate: u64) -> u64
    ensures { result ≡ inside.tick_at turn whole before rate }
{
    if TURNS < turn || LARGEST_TOTAL < whole || whole < before || LARGEST_RATE < rate {
        return 0;
    }
    tick_of(turn, whole, before, rate)
}

// All lengths together, in ns, in one pass: rule 9 is weighed of every length before the sum is. The calls below weigh these refusals first: 9, 11.
pub fn total(words: &[u64], clips: usize) -> Result<u64, Refusal>
    ensures { answer_of result ≡ rule.total words.now clips }
{
    if !record::clips_fit(words, clips) {
        return Err(Refusal::BrokenTable);
    }
    let mut sum = 0u64;
    for k in 0..clips {
        let length = record::clip_word(words, k, layout::LENGTH);
        if layout::LENGTH_LIMIT <= length {
            return Err(Refusal::BrokenTable);
        }
        sum = added(sum, length);
    }
    if LARGEST_TOTAL < sum {
        return Err(Refusal::TotalTooLong);
    }
    Ok(sum)
}

// The total, where the rate is in its limits too: 9, 11, 12.
pub fn at_rate(words: &[u64], clips: usize, rate: u64) -> Result<u64, Refusal>
    ensures { answer_of result ≡ rule.at_rate words.now clips rate (given (clock.sum_lengths words.now clips)) }
{
    let whole = total(words, clips)?;
    if rate < SMALLEST_RATE || LARGEST_RATE < rate {
        return Err(Refusal::BadRate);
    }
    Ok(whole)
}

// And the turn too: 9, 11, 12, 13.
pub fn in_turn(words: &[u64], clips: usize, rate: u64, turn: u64) -> Result<u64, Refusal>
    ensures { answer_of result ≡ rule.in_turn words.now clips rate turn (given (clock.sum_lengths words.now clips)) }
{
    let whole = at_rate(words, clips, rate)?;
    if LAST_TURN < turn {
        return Err(Refusal::TurnTooLate);
    }
    Ok(whole)
}

// The start of a clip within its turn, in ns: all earlier lengths.
pub fn start_ns(words: &[u64], clips: usize, clip: usize) -> Result<u64, Refusal>
    ensures { answer_of result ≡ rule.start_ns words.now clips clip }
{
    total(words, clips)?;
    if clips <= clip {
        return Err(Refusal::NoSuchClip);
    }
    Ok(sum_upto(words, clip))
}
