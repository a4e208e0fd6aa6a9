// What a program says: the bytes that its input asks for, on standard output, or a refusal, on standard error.
ghost use Rattle.std.specs.Prelude.{◌≡◌, ◌≢◌, None, Some, IsErr, IfErr, OnOk, []};
ghost use Rattle.std.specs.Io.KnownBytes.{Appends};
ghost use Rattle.std.specs.Option.{option_or};
ghost use Rattle.output.specs.Held.{waits, why, behind};
ghost use Rattle.output.specs.Puts.{Puts, Sends};
ghost use Rattle.printing.specs.Lines as rule;

use output::Output;
use std::io;
use std::io::Write;

#[derive(Drop)]
pub struct Streams<O, E> {
    pub out: Output<O>,
    pub err: Output<E>,
}

impl<O: Write, E: Write> Streams<O, E> {
    pub fn new(out: O, err: E) -> Streams<O, E>
        ensures empty { (waits result.out ≡ []) × (waits result.err ≡ []) }
        ensures went { (why result.out ≡ None) × (why result.err ≡ None) }
        ensures before { (behind result.out ≡ out) × (behind result.err ≡ err) }
    {
        Streams {
            out: Output::new(out),
            err: Output::new(err),
        }
    }

    // A refusal, and nothing for standard output.
    pub fn refuse(&mut self, number: u64, place: usize)
        ensures aside { self.new.out ≡ self.old.out }
        ensures puts { Puts self.old.err self.new.err (rule.refused_line number place) }
        ensures sent { Sends E.contents self.old.err self.new.err (rule.refused_line number place) }
    {
        crate::refused(&mut self.err, number, place);
    }

    // Bytes, and nothing for standard error.
    pub fn give(&mut self, bytes: &[u8])
        ensures aside { self.new.err ≡ self.old.err }
        ensures puts { Puts self.old.out self.new.out bytes.now }
        ensures sent { Sends O.contents self.old.out self.new.out bytes.now }
    {
        self.out.put_bytes(bytes);
    }

    // Writes what waits where it belongs, and answers whether all went.
    pub fn flush(&mut self) -> io::Result<()>
        ensures sent_out { OnOk result (Appends (O.contents (behind self.old.out)) (O.contents (behind self.new.out)) (waits self.old.out)) }
        ensures sent_err { OnOk result (Appends (E.contents (behind self.old.err)) (E.contents (behind self.new.err)) (waits self.old.err)) }
        ensures out_went { why self.new.out ≡ None → (waits self.new.out ≡ []) × Appends (O.contents (behind self.old.out)) (O.contents (behind self.new.out)) (waits self.old.out) }
        ensures err_went { why self.new.err ≡ None → (waits self.new.err ≡ []) × Appends (E.contents (behind self.old.err)) (E.contents (behind self.new.err)) (waits self.old.err) }
        ensures empty { OnOk result ((waits self.new.out ≡ []) × (waits self.new.err ≡ [])) }
        ensures went { OnOk result ((why self.new.out ≡ None) × (why self.new.err ≡ None)) }
        ensures kept { IfErr result (λ e. option_or (why self.new.out) (why self.new.err) ≡ Some e) }
        ensures rest_out { why self.new.out ≢ None → waits self.new.out ≡ waits self.old.out }
        ensures rest_err { why self.new.err ≢ None → waits self.new.err ≡ waits self.old.err }
        ensures stays_out { why self.old.out ≢ None → IsErr result }
        ensures stays_err { why self.old.err ≢ None → IsErr result }
        ensures idle_out { waits self.old.out ≡ [] → self.new.out.to ≡ self.old.out.to }
        ensures idle_err { waits self.old.err ≡ [] → self.new.err.to ≡ self.old.err.to }
    {
        let out = self.out.flush();
        let err = self.err.flush();
        out.and(err)
    }

    // Why a write failed, the first that is known.
    pub fn error(&self) -> Option<io::Error>
        ensures { result ≡ option_or (why self.now.out) (why self.now.err) }
    {
        self.out.error().or(self.err.error())
    }
}
