// A writer that keeps why a write to it failed, so that a program can say it. It is a type of its own: std's `write` keeps known bytes on `Err`, which an
// `Output` that has lost a full buffer could not promise.
ghost use Rattle.std.specs.Prelude.{◌≡◌, ◌≢◌, None, Some, IsErr, IfErr, OnOk, []};
ghost use Rattle.std.specs.Io.{WritesAtMost};
ghost use Rattle.std.specs.Io.KnownBytes.{Appends, Keeps, WriteAppends};

use std::io;
use std::io::Write;

#[derive(Drop)]
pub struct Watched<W> {
    to: W,
    pub error: Option<io::Error>,
}

impl<W> Watched<W> {
    pub fn new(to: W) -> Watched<W>
        ensures behind { result.to ≡ to }
        ensures went { result.error ≡ None }
    {
        Watched { to, error: None }
    }

    // What a call of the writer behind answered, and the error of one that failed is kept.
    fn keep<T>(&mut self, answer: io::Result<T>) -> io::Result<T>
        ensures same { result ≡ answer }
        ensures behind { self.new.to ≡ self.old.to }
        ensures kept { IfErr answer (λ e. self.new.error ≡ Some e) }
        ensures unchanged { OnOk answer (self.new.error ≡ self.old.error) }
    {
        if let Err(e) = &answer {
            self.error = Some(*e);
        }
        answer
    }
}

impl<W: Write> Watched<W> {
    // Writes all, or nothing after a write that failed: what arrives is a beginning of what was to be written.
    pub fn write_on(&mut self, bytes: &[u8]) -> io::Result<()>
        ensures sent { OnOk result (Appends (W.contents self.old.to) (W.contents self.new.to) bytes.now) }
        ensures went { OnOk result (self.new.error ≡ None) }
        ensures kept { IfErr result (λ e. self.new.error ≡ Some e) }
        ensures stays { self.old.error ≢ None → IsErr result × (self.new ≡ self.old) }
        ensures idle { bytes.now ≡ [] → self.new ≡ self.old }
    {
        if let Some(e) = self.error {
            return Err(e);
        }
        if bytes.is_empty() {
            return Ok(());
        }
        self.write_all(bytes)
    }
}

impl<W: Write> Write for Watched<W> {
    ghost contents = { λ s. W.contents s.to };

    fn write(&mut self, buf: &[u8]) -> io::Result<usize>
        ensures bound { WritesAtMost result buf.now }
        ensures bytes { WriteAppends (W.contents self.old.to) (W.contents self.new.to) result buf.now }
        ensures kept { IfErr result (λ e. self.new.error ≡ Some e) }
        ensures unchanged { OnOk result (self.new.error ≡ self.old.error) }
    {
        let written = self.to.write(buf);
        self.keep(written)
    }

    fn flush(&mut self) -> io::Result<()>
        ensures bytes { Keeps (W.contents self.old.to) (W.contents self.new.to) }
        ensures kept { IfErr result (λ e. self.new.error ≡ Some e) }
        ensures unchanged { OnOk result (self.new.error ≡ self.old.error) }
    {
        let flushed = self.to.flush();
        self.keep(flushed)
    }

    fn write_all(&mut self, buf: &[u8]) -> io::Result<()>
        ensures bytes { OnOk result (Appends (W.contents self.old.to) (W.contents self.new.to) buf.now) }
        ensures kept { IfErr result (λ e. self.new.error ≡ Some e) }
        ensures unchanged { OnOk result (self.new.error ≡ self.old.error) }
    {
        let written = self.to.write_all(buf);
        self.keep(written)
    }
}
