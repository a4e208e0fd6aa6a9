// Starts and lengths in ticks of a turn.
ghost use Rattle.std.specs.Prelude.{◌≡◌, ◌+◌, ◌*◌, ◌≤◌};
ghost use Rattle.tables.specs.Refusal.{given};
ghost use Rattle.clock.specs.Clock as clock;
ghost use Rattle.clock.specs.Calls as rule;
ghost use Rattle.clock.specs.Answers.{answer_of};

use tables::Refusal;

// The total, where there is such a clip too: 9, 11, 12, 13, 14.
fn clip_in_turn(
    words: &[u64],
    clips: usize,
    rate: u64,
    turn: u64,
    clip: usize,
) -> Result<u64, Refusal>
    ensures { answer_of result ≡ rule.in_turn words.now clips rate turn (rule.of_clip clips clip (given (clock.sum_lengths words.now clips))) }
{
    let whole = crate::in_turn(words, clips, rate, turn)?;
    if clips <= clip {
        return Err(Refusal::NoSuchClip);
    }
    Ok(whole)
}

// The tick at which a turn of the whole has played its first k clips.
fn tick_reached(words: &[u64], k: usize, rate: u64, turn: u64, whole: u64) -> u64
    requires { (clock.sum_lengths words.now k ≤ whole) × (whole ≤ clock.largest_total) × (turn ≤ clock.last_turn) × (rate ≤ clock.largest_rate) }
    ensures { result ≡ clock.tick_of (turn * whole + clock.sum_lengths words.now k) rate }
{
    let before = crate::sum_upto(words, k);
    crate::tick_of(turn, whole, before, rate)
}

// The tick at which a clip starts in a turn.
pub fn start_tick(
    words: &[u64],
    clips: usize,
    rate: u64,
    turn: u64,
    clip: usize,
) -> Result<u64, Refusal>
    ensures { answer_of result ≡ rule.start_tick words.now clips rate turn clip }
{
    let whole = clip_in_turn(words, clips, rate, turn, clip)?;
    Ok(tick_reached(words, clip, rate, turn, whole))
}

// A clip's ticks in a turn: the next start minus its own. After the turn's last clip that is the next turn's first start.
pub fn clip_ticks(
    words: &[u64],
    clips: usize,
    rate: u64,
    turn: u64,
    clip: usize,
) -> Result<u64, Refusal>
    ensures { answer_of result ≡ rule.clip_ticks words.now clips rate turn clip }
{
    let whole = clip_in_turn(words, clips, rate, turn, clip)?;
    let start = tick_reached(words, clip, rate, turn, whole);
    let next = tick_reached(words, clip + 1, rate, turn, whole);
    Ok(next - start)
}
