// Shows a cue file as text: the file on standard input, on standard output a line for each clip with its number, its start in ns and its URI.
// A refusal is one line on standard error, and nothing on standard output.
#![tactic(auto)]

ghost use Rattle.std.specs.Prelude.{◌≡◌, length, take, IfOk, IfSome, OnOk};
ghost use Rattle.output.specs.Held.{behind, held};
ghost use Rattle.printing.specs.Said.{SaidAs, SaysAs, SendsAs, Tells};
ghost use Rattle.cues.specs.Shown as rule;

use cue_reader::all::Cues;
use input::watched::Watched;
use input::whole;
use input::whole::Cut;
use printing::Failed;
use printing::streams::Streams;
use std::io::{Read, Write};
use tables::Refusal;

mod lines; // what is printed

// The longest file that the program holds.
const FILE_SIZE: usize = 393_216;

// One byte more, so that a longer file is seen to be longer. What comes after that byte is not read.
const FILE_ROOM: usize = FILE_SIZE + 1;

// 1 by the program's own size, then the reader's refusals, before the first line is printed.
fn show_file<O: Write, E: Write>(say: &mut Streams<O, E>, file: &[u8])
    ensures says { SaidAs say.old say.new (rule.shown_file file.now) }
    ensures sent { SendsAs say.old say.new O.contents E.contents (rule.shown_file file.now) }
{
    if FILE_SIZE < file.len() {
        return say.refuse(Refusal::TextTooLong.number(), 0);
    }
    match Cues::new(file) {
        Err(r) => say.refuse(r.number(), 0),
        Ok(cues) => lines::cues(&mut say.out, file, cues),
    }
}

// Answers how many bytes came, the first of the file. A file that could not be read is not shown. What comes is the reader's to say.
fn run<I: Read, O: Write, E: Write>(
    stdin: &mut I,
    say: &mut Streams<O, E>,
    file: &mut [u8],
) -> Result<usize, Cut>
    ensures came { IfOk result (λ count. IfSome (I.remaining stdin.old) (λ bytes. take count file.new ≡ take (length file.new) bytes)) }
    ensures says { SaysAs say.old say.new result (λ count. rule.shown_file (take count file.new)) }
    ensures sent { IfOk result (λ count. SendsAs say.old say.new O.contents E.contents (rule.shown_file (take count file.new))) }
{
    let count = whole::read_all(stdin, file)?;
    show_file(say, &file[..count]);
    Ok(count)
}

// The whole program. Where all was read and written, the file that came is shown, or why it is refused.
fn show<I: Read, O: Write, E: Write>(
    stdin: &mut I,
    say: &mut Streams<O, E>,
    file: &mut [u8; FILE_ROOM],
) -> Result<(), Failed>
    ensures { OnOk result (IfSome (I.remaining stdin.old) (λ bytes.
        Tells (held O.contents say.old.out) (O.contents (behind say.new.out)) (held E.contents say.old.err) (E.contents (behind say.new.err)) (rule.shown_file bytes))) }
{
    run(stdin, say, file).map_err(|cut| Failed::Read(cut.error))?;
    say.flush().map_err(Failed::Write)?;
    Ok(())
}

fn main(rt: HostRuntime) {
    let mut stdin = Watched::new(rt.stdin());
    let mut say = Streams::new(rt.stdout(), rt.stderr());
    let mut file = [0u8; FILE_ROOM];
    match show(&mut stdin, &mut say, &mut file) {
        Ok(()) => {}
        Err(Failed::Read(e)) => printing::tell(rt, "cues: read", stdin.error.unwrap_or(e)),
        Err(Failed::Write(e)) => printing::tell(rt, "cues: write", e),
    }
}
