// What is printed; `sheet` prints the whole.
ghost use Rattle.std.specs.Prelude.{◌≡◌};
ghost use Rattle.output.specs.Puts.{Puts, Sends};
ghost use Rattle.starts.specs.Answers.{cursor_of, row_of};
ghost use Rattle.starts.specs.Starts.{next};
ghost use Rattle.sheet.specs.Inside.Pass as inside;

use output::Output;
use starts::{Row, Starts};
use std::io::Write;
use tables::{layout, record};

// Number, start, length and tick as the cursor has them; the URI's bytes as they stand in the text.
fn clip<O: Write>(out: &mut Output<O>, text: &[u8], words: &[u64], row: Row)
    ensures puts { Puts out.old out.new (inside.row_line text.now words.now (row_of row)) }
    ensures sent { Sends O.contents out.old out.new (inside.row_line text.now words.now (row_of row)) }
{
    let start = record::clip_word(words, row.clip, layout::URI_START);
    let end = record::clip_word(words, row.clip, layout::URI_END);
    printing::field(out, row.clip as u64);
    printing::field(out, row.start);
    printing::field(out, row.length);
    printing::field(out, row.tick);
    out.put_part(text, start as usize, end as usize);
    out.put_byte(b'\n');
}

// One step, and the cursor after it. Over the words that the cursor was made with no step is refused, so that but for a clip there is nothing to print.
fn next_clip<O: Write>(out: &mut Output<O>, starts: Starts, text: &[u8], words: &[u64]) -> Starts
    ensures moved { cursor_of result ≡ inside.step_after (cursor_of starts) (next words.now (cursor_of starts)) }
    ensures puts { Puts out.old out.new (inside.step_line text.now words.now (next words.now (cursor_of starts))) }
    ensures sent { Sends O.contents out.old out.new (inside.step_line text.now words.now (next words.now (cursor_of starts))) }
{
    match starts.next(words) {
        Ok(Some((row, after))) => {
            clip(out, text, words, row);
            after
        }
        _ => starts,
    }
}

// One step for each clip.
fn clips<O: Write>(out: &mut Output<O>, text: &[u8], words: &[u64], starts: Starts)
    ensures puts { Puts out.old out.new (inside.pass_lines text.now words.now (cursor_of starts) starts.clips) }
    ensures sent { Sends O.contents out.old out.new (inside.pass_lines text.now words.now (cursor_of starts) starts.clips) }
{
    let clips = starts.clips;
    let mut at = starts;
    for _k in 0..clips {
        at = next_clip(out, at, text, words);
    }
}

pub fn sheet<O: Write>(out: &mut Output<O>, text: &[u8], words: &[u64], starts: Starts)
    ensures puts { Puts out.old out.new (inside.pass_sheet text.now words.now (cursor_of starts)) }
    ensures sent { Sends O.contents out.old out.new (inside.pass_sheet text.now words.now (cursor_of starts)) }
{
    out.put_bytes(b"clip\tstart\tlength\ttick\turi\n");
    clips(out, text, words, starts);
    out.put_bytes(b"total\t");
    printing::number_line(out, starts.total);
}
