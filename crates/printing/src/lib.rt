// Lines that several programs print: numbers by field and by line, and a refusal.
#![tactic(auto)]

ghost use Rattle.std.specs.Prelude.{◌≡◌, None, []};
ghost use Rattle.output.specs.Held.{waits, why};
ghost use Rattle.output.specs.Puts.{Puts, PutsFirst, Sends, SendsFirst};
ghost use Rattle.printing.specs.Lines as rule;

use output::Output;
use std::io;
use std::io::Write;

pub mod streams; // standard output and standard error, side by side

// A number that ends a line.
pub fn number_line<W: Write>(out: &mut Output<W>, number: u64)
    ensures puts { Puts out.old out.new (rule.number_line number) }
    ensures sent { Sends W.contents out.old out.new (rule.number_line number) }
{
    out.put_number(number);
    out.put_byte(b'\n');
}

// A number that more fields follow.
pub fn field<W: Write>(out: &mut Output<W>, number: u64)
    ensures puts { Puts out.old out.new (rule.field number) }
    ensures sent { Sends W.contents out.old out.new (rule.field number) }
{
    out.put_number(number);
    out.put_byte(b'\t');
}

// The only line of a refused input.
pub fn refused<W: Write>(out: &mut Output<W>, number: u64, place: usize)
    ensures puts { Puts out.old out.new (rule.refused_line number place) }
    ensures sent { Sends W.contents out.old out.new (rule.refused_line number place) }
    ensures first { waits out.old ≡ [] → why out.old ≡ None → PutsFirst out.new (rule.refused_line number place) }
    ensures first_sent { waits out.old ≡ [] → SendsFirst W.contents out.old out.new (rule.refused_line number place) }
{
    out.put_bytes(b"refused ");
    out.put_number(number);
    out.put_bytes(b" at ");
    number_line(out, place as u64);
}

// What kept a program from its end: its input could not be read, or what it says could not be written.
#[derive(Drop)]
pub enum Failed {
    Read(io::Error),
    Write(io::Error),
}

// Says on standard error why a stream failed, in the operating system's words: the error's text also has its number, which nobody asked for.
pub fn tell(rt: HostRuntime, what: &str, e: io::Error) {
    let _ = match format!(in rt.alloc(); "{e}") {
        Ok(text) => match text.split_once(" (os error ") {
            Some((words, _)) => eprintln!(rt; "{what}: {words}"),
            None => eprintln!(rt; "{what}: {text}"),
        },
        Err(_) => eprintln!(rt; "{what}: {e}"),
    };
}
