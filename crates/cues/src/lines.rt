// What is printed; `cues` prints the whole.
ghost use Rattle.std.specs.Prelude.{◌≡◌};
ghost use Rattle.text.specs.Answers.{span_of};
ghost use Rattle.output.specs.Puts.{Puts, Sends};
ghost use Rattle.cue_file.specs.Format.{version1};
ghost use Rattle.cue_file.specs.Read.{next};
ghost use Rattle.cue_reader.specs.Answers.{cursor_of};
ghost use Rattle.cues.specs.Inside.Pass as inside;

use cue_reader::all::{Cue, Cues};
use output::Output;
use std::io::Write;

// Number and start as the cursor has them; the URI's bytes as they stand in the file.
fn cue<O: Write>(out: &mut Output<O>, file: &[u8], cue: Cue)
    ensures puts { Puts out.old out.new (inside.span_line file.now cue.clip cue.start (span_of cue.uri)) }
    ensures sent { Sends O.contents out.old out.new (inside.span_line file.now cue.clip cue.start (span_of cue.uri)) }
{
    let uri = cue.uri;
    printing::field(out, cue.clip as u64);
    printing::field(out, cue.start);
    out.put_part(file, uri.start, uri.end);
    out.put_byte(b'\n');
}

// One step, and the cursor after it. Over the file that the cursor was made with no step is refused, so that but for a clip there is nothing to print.
fn next_cue<O: Write>(out: &mut Output<O>, cues: Cues, file: &[u8]) -> Cues
    ensures moved { cursor_of result ≡ inside.step_after (cursor_of cues) (next version1 file.now (cursor_of cues)) }
    ensures puts { Puts out.old out.new (inside.step_line file.now (next version1 file.now (cursor_of cues))) }
    ensures sent { Sends O.contents out.old out.new (inside.step_line file.now (next version1 file.now (cursor_of cues))) }
{
    match cues.next(file) {
        Ok(Some((row, after))) => {
            cue(out, file, row);
            after
        }
        _ => cues,
    }
}

// One step for each clip.
fn each<O: Write>(out: &mut Output<O>, file: &[u8], cues: Cues)
    ensures puts { Puts out.old out.new (inside.pass_lines file.now (cursor_of cues) cues.clips) }
    ensures sent { Sends O.contents out.old out.new (inside.pass_lines file.now (cursor_of cues) cues.clips) }
{
    let clips = cues.clips;
    let mut at = cues;
    for _k in 0..clips {
        at = next_cue(out, at, file);
    }
}

pub fn cues<O: Write>(out: &mut Output<O>, file: &[u8], cues: Cues)
    ensures puts { Puts out.old out.new (inside.pass_text file.now (cursor_of cues)) }
    ensures sent { Sends O.contents out.old out.new (inside.pass_text file.now (cursor_of cues)) }
{
    out.put_bytes(b"clip\tstart\turi\n");
    each(out, file, cues);
}
