// The windows of all clips, into a lent table of four words a clip: what the call for the clip answers, its number, 1 or 0 for a range, start and end.
ghost use Rattle.std.specs.Prelude.{◌≡◌, true};
ghost use Rattle.tables.specs.Table.{windows_fit};
ghost use Rattle.tables.specs.Refusal.{given, laid};
ghost use Rattle.window.specs.Answers.{answer_of};
ghost use Rattle.windows.specs.Table as rule;

use tables::{Refusal, layout, record};
use window::{Range, Window};

// A window's four words. No `From`, since neither type is this crate's.
fn words_of(window: Window) -> [u64; layout::WINDOW_WORDS]
    ensures { result ≡ rule.window_record (answer_of window) }
{
    match window {
        Err(r) => [r.number(), 0, 0, 0],
        Ok(None) => [0, 0, 0, 0],
        Ok(Some(Range { start, end })) => [0, 1, start, end],
    }
}

// The table is long enough.
fn lay(text: &[u8], words: &[u64], clips: usize, out: &mut [u64])
    requires { windows_fit out.old clips ≡ true }
    ensures { out.new ≡ laid (given clips) (rule.window_records text.now words.now clips) out.old }
{
    let mut before: Window = Ok(None);
    for k in 0..clips {
        before = window::window_after(text, words, k, before);
        let record = words_of(before);
        record::store_window(out, k, &record);
    }
}

// 1, 9; then 10, where the table has fewer than four words a clip. Where it is refused, no word changes.
pub fn all_windows(
    text: &[u8],
    words: &[u64],
    clips: usize,
    out: &mut [u64],
) -> Result<usize, Refusal>
    ensures { rule.WindowsAs text.now words.now clips out.old out.new result }
{
    window::over_clips(text, words, clips)?;
    if !record::windows_fit(out, clips) {
        return Err(Refusal::OutputShort);
    }
    lay(text, words, clips, out);
    Ok(clips)
}
