// All starts of a turn, into a lent table of two words a clip: its start in ns within the turn, its start tick.
ghost use Rattle.std.specs.Prelude.{◌≡◌, true, ◌≤◌};
ghost use Rattle.tables.specs.Table.{starts_fit};
ghost use Rattle.tables.specs.Refusal.{given, laid};
ghost use Rattle.clock.specs.Clock as clock;
ghost use Rattle.starts.specs.Table as rule;

use tables::{Refusal, layout, record};

// The table is long enough, and the whole is that of the words.
fn lay(words: &[u64], clips: usize, rate: u64, turn: u64, whole: u64, out: &mut [u64])
    requires { (starts_fit out.old clips ≡ true) × (whole ≡ clock.sum_lengths words.now clips) × (whole ≤ clock.largest_total) × (turn ≤ clock.last_turn) × (rate ≤ clock.largest_rate) }
    ensures { out.new ≡ laid (given clips) (rule.start_records words.now clips rate turn clips) out.old }
{
    let mut before = 0u64;
    for k in 0..clips {
        let tick = clock::tick_at(turn, whole, before, rate);
        record::store_start(out, k, &[before, tick]);
        before += record::clip_word(words, k, layout::LENGTH);
    }
}

// 9, 11, 12, 13; then 10, where the table has fewer than two words a clip. Where it is refused, no word changes.
pub fn all_starts(
    words: &[u64],
    clips: usize,
    rate: u64,
    turn: u64,
    out: &mut [u64],
) -> Result<usize, Refusal>
    ensures { rule.StartsAs words.now clips rate turn out.old out.new result }
{
    let whole = clock::in_turn(words, clips, rate, turn)?;
    if !record::starts_fit(out, clips) {
        return Err(Refusal::OutputShort);
    }
    lay(words, clips, rate, turn, whole, out);
    Ok(clips)
}
