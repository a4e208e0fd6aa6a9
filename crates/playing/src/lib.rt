// Which clip is on at a tick, in the turns that a list is played (02, [2]): the last one whose start tick is not after it; since when, and for how long still.
// The total is found in one pass over the clips, and the clip in a second that stops there.
#![tactic(auto)]

ghost use Rattle.std.specs.Prelude.{◌≡◌, ◌+◌, ◌*◌, ◌≤◌, ◌<◌};
ghost use Rattle.tables.specs.Refusal.{given};
ghost use Rattle.clock.specs.Clock as clock;
ghost use Rattle.clock.specs.Answers.{answer_of};
ghost use Rattle.playing.specs.Playing as rule;
ghost use Rattle.playing.specs.Answers.{on_of, played_of};
ghost use Rattle.playing.specs.Inside.Moment as inside;

use tables::layout::SECOND;
use tables::{Refusal, layout, record};

// A clip, in a turn.
#[derive(Clone, Copy)]
pub struct Pair {
    pub turn: u64,
    pub clip: usize,
}

// The clip that is on, how many ticks ago it started, and how many are left until the next start.
#[derive(Clone, Copy)]
pub struct Playing {
    pub turn: u64,
    pub clip: usize,
    pub since: u64,
    pub left: u64,
}

// A number of ns as whole turns and what is left.
#[derive(Clone, Copy)]
struct Turns {
    turn: u64,
    rest: u64,
}

impl Turns {
    // One step of a long division by the whole, three decimal digits at a time: behind turn x whole + rest come the digits d.
    fn down(self, d: u64, whole: u64) -> Turns
        requires { (whole ≤ clock.largest_total) × (self.rest < whole) × (d < 1000) × ((self.turn * whole + self.rest) * 1000 + d < clock.turns * whole) }
        ensures { (result.turn * whole + result.rest ≡ (self.turn * whole + self.rest) * 1000 + d) × (result.rest < whole) }
    {
        let x = self.rest * 1_000 + d;
        Turns {
            turn: self.turn * 1_000 + x / whole,
            rest: x % whole,
        }
    }
}

// A clip, the lengths before it, and its own.
#[derive(Clone, Copy)]
struct Found {
    clip: usize,
    before: u64,
    length: u64,
}

// The total, where something plays and the tick comes before the end of the last turn: 9, 11, 12, 17, 18.
fn in_play(words: &[u64], clips: usize, rate: u64, tick: u64) -> Result<u64, Refusal>
    ensures { answer_of result ≡ rule.in_play words.now clips rate tick (given (clock.sum_lengths words.now clips)) }
{
    let whole = clock::at_rate(words, clips, rate)?;
    if whole == 0 {
        return Err(Refusal::NothingPlays);
    }
    let end = clock::tick_at(clock::TURNS, whole, 0, rate);
    if end <= tick {
        return Err(Refusal::TickTooLate);
    }
    Ok(whole)
}

// The last ns whose tick is not after the given one, which may be above 2^64: its seconds and the ns left over are divided one after the other.
fn reached(tick: u64, rate: u64, whole: u64) -> Turns
    requires { (whole ≤ clock.largest_total) × (1 ≤ rate) × (rate ≤ clock.largest_rate) × (tick < clock.tick_of (clock.turns * whole) rate) }
    ensures { (result.turn * whole + result.rest ≡ inside.last_moment rate tick) × (result.rest < whole) }
{
    let seconds = tick / rate;
    let nanos = (tick % rate * SECOND + (SECOND - 1)) / rate;
    let turns = Turns {
        turn: seconds / whole,
        rest: seconds % whole,
    };
    turns
        .down(nanos / 1_000_000, whole)
        .down(nanos / 1_000 % 1_000, whole)
        .down(nanos % 1_000, whole)
}

// The last clip that has started `rest` ns into a turn: the first that is not over by then, so that one of length 0 is passed over.
fn clip_within(words: &[u64], clips: usize, rest: u64) -> Found
    requires { (rest < clock.sum_lengths words.now clips) × (clock.sum_lengths words.now clips ≤ clock.largest_total) }
    ensures { inside.FoundAt words.now clips rest result.clip result.before result.length }
{
    let mut before = 0u64;
    for clip in 0..clips {
        let length = record::clip_word(words, clip, layout::LENGTH);
        let left = rest - before;
        if left < length {
            return Found {
                clip,
                before,
                length,
            };
        }
        before += length;
    }
    unreachable!()
}

// The last pair whose start tick is not after the tick, where the whole and the tick have passed `in_play`.
fn pair_at(words: &[u64], clips: usize, rate: u64, tick: u64, whole: u64) -> (u64, Found)
    requires { inside.InPlay words.now clips rate tick × (whole ≡ clock.sum_lengths words.now clips) }
    ensures { inside.SpotAt words.now clips rate tick result.0 result.1.clip result.1.before result.1.length }
{
    let m = reached(tick, rate, whole);
    (m.turn, clip_within(words, clips, m.rest))
}

// Which clip is on at a tick, and in which turn.
pub fn clip_at(words: &[u64], clips: usize, rate: u64, tick: u64) -> Result<Pair, Refusal>
    ensures { on_of result ≡ rule.clip_at words.now clips rate tick }
{
    let whole = in_play(words, clips, rate, tick)?;
    let (turn, found) = pair_at(words, clips, rate, tick, whole);
    Ok(Pair {
        turn,
        clip: found.clip,
    })
}

// The same, with the ticks since its start and those left until the next.
pub fn playing_at(words: &[u64], clips: usize, rate: u64, tick: u64) -> Result<Playing, Refusal>
    ensures { played_of result ≡ rule.playing_at words.now clips rate tick }
{
    let whole = in_play(words, clips, rate, tick)?;
    let (turn, found) = pair_at(words, clips, rate, tick, whole);
    let start = clock::tick_at(turn, whole, found.before, rate);
    let next = clock::tick_at(turn, whole, found.before + found.length, rate);
    Ok(Playing {
        turn,
        clip: found.clip,
        since: tick - start,
        left: next - tick,
    })
}
