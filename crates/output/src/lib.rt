// Buffered output: what waits to be written to a writer, and why a write failed, if one did.
// What waits is fixed byte for byte, and a failure stays. What a writer holds grows by what was put, unless a write failed: of a writer that says what it holds.
// The standard streams don't say it: what reaches them, and that a write which fails is told, shows only in runs.
#![tactic(auto)]

ghost use Rattle.std.specs.Prelude.{◌≤◌};
ghost use Rattle.output.specs.Waiting.{room};

use std::io;
use std::io::Write;
use watched::Watched;

pub mod watched; // a writer that keeps why it failed

// What a buffer holds.
pub const ROOM: usize = 65_536;

// The first bytes of the buffer wait.
#[derive(Drop)]
pub struct Output<W> {
    to: Watched<W>,
    buffer: [u8; ROOM],
    count: usize,
    ghost fits: { count ≤ room },
}

impl<W: Write> Output<W> {
    ghost use Rattle.std.specs.Prelude.{◌≡◌, ◌≢◌, None, Some, IsErr, IfErr, OnOk, OnErr, ℕ, List, [], ◌∷◌, ◌++◌, take};
    ghost use Rattle.std.specs.Io.KnownBytes.{Appends};
    ghost use Rattle.digits.specs.Digits.{number_text};
    ghost use Rattle.output.specs.Waiting as rule;
    ghost use Rattle.output.specs.Held.{waits, why, behind};
    ghost use Rattle.output.specs.Puts.{Puts, Sends};

    // Before the first byte.
    pub fn new(to: W) -> Output<W>
        ensures empty { waits result ≡ [] }
        ensures went { why result ≡ None }
        ensures before { behind result ≡ to }
    {
        Output {
            to: Watched::new(to),
            buffer: [0; ROOM],
            count: 0,
        }
    }

    // Over a buffer whose first bytes wait, all where it has no more than `count`, and where a write failed before, with why.
    pub fn over(to: W, buffer: [u8; ROOM], count: usize, error: Option<io::Error>) -> Output<W>
        ensures waiting { waits result ≡ take count buffer }
        ensures kept { why result ≡ error }
        ensures before { behind result ≡ to }
    {
        let mut to = Watched::new(to);
        to.error = error;
        Output {
            to,
            buffer,
            count: count.min(ROOM),
        }
    }

    // What waits.
    pub fn waiting(&self) -> &[u8]
        ensures { result.now ≡ waits self.now }
    {
        &self.buffer[..self.count]
    }

    // Why a write failed.
    pub fn error(&self) -> Option<io::Error>
        ensures { result ≡ why self.now }
    {
        self.to.error
    }

    // One byte more; a full buffer is written out first.
    pub fn put_byte(&mut self, byte: u8)
        ensures puts { Puts self.old self.new (byte ∷ []) }
        ensures sent { Sends W.contents self.old self.new (byte ∷ []) }
    {
        if self.count < ROOM {
            self.buffer[self.count] = byte;
            self.count += 1;
            return;
        }
        let _ = self.to.write_on(&self.buffer);
        self.buffer[0] = byte;
        self.count = 1;
    }

    // As many of the bytes as have room beside those that wait, in one piece; it answers the others.
    fn put_front<'a>(&mut self, bytes: &'a [u8]) -> &'a [u8]
        ensures { (front : List ℕ) × (bytes.now ≡ front ++ result.now) × Puts self.old self.new front × Sends W.contents self.old self.new front }
    {
        let fit = bytes.len().min(ROOM - self.count);
        let (front, rest) = bytes.split_at(fit);
        self.buffer[self.count..self.count + fit].copy_from_slice(front);
        self.count += fit;
        rest
    }

    pub fn put_bytes(&mut self, bytes: &[u8])
        ensures puts { Puts self.old self.new bytes.now }
        ensures sent { Sends W.contents self.old self.new bytes.now }
    {
        let mut rest = self.put_front(bytes);
        while let Some((byte, more)) = rest.split_first() {
            self.put_byte(*byte);
            rest = self.put_front(more);
        }
    }

    // A part of a text, or nothing where the text has no such part.
    pub fn put_part(&mut self, text: &[u8], start: usize, end: usize)
        ensures puts { Puts self.old self.new (rule.part text.now start end) }
        ensures sent { Sends W.contents self.old self.new (rule.part text.now start end) }
    {
        if text.len() < end {
            return;
        }
        if end < start {
            return;
        }
        self.put_bytes(&text[start..end]);
    }

    // A number in decimal: first its quotient by ten, then its last digit.
    pub fn put_number(&mut self, number: u64)
        ensures puts { Puts self.old self.new (number_text number) }
        ensures sent { Sends W.contents self.old self.new (number_text number) }
    {
        if number < 10 {
            self.put_byte((48 + number) as u8);
            return;
        }
        self.put_number(number / 10);
        self.put_byte((48 + number % 10) as u8);
    }

    // Writes what waits, unless a write failed before.
    pub fn flush(&mut self) -> io::Result<()>
        ensures sent { OnOk result (Appends (W.contents (behind self.old)) (W.contents (behind self.new)) (waits self.old)) }
        ensures empty { OnOk result (waits self.new ≡ []) }
        ensures went { OnOk result (why self.new ≡ None) }
        ensures kept { IfErr result (λ e. why self.new ≡ Some e) }
        ensures rest { OnErr result (waits self.new ≡ waits self.old) }
        ensures stays { why self.old ≢ None → IsErr result × (self.new.to ≡ self.old.to) }
        ensures idle { waits self.old ≡ [] → self.new.to ≡ self.old.to }
    {
        self.to.write_on(&self.buffer[..self.count])?;
        self.count = 0;
        Ok(())
    }
}
