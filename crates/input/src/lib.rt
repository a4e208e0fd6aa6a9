// Input that is taken bit by bit, through a buffer that is filled again where it is used up.
// A stop holds: once the input stopped, every call answers that stop, and nothing is read.
#![tactic(auto)]

ghost use Rattle.std.specs.Prelude.{◌≡◌, None, Some, true, ◌≤◌, ◌<◌, length, IfOk, OnOk};
ghost use Rattle.input.specs.Numbers.{number_at};
ghost use Rattle.input.specs.declared.TheConstants.{ROOM};

use std::alloc::AllocError;
use std::io::Read;

pub mod watched; // a reader that keeps why it failed
pub mod whole; // an input that fits into memory, at once

// What a buffer holds.
pub const ROOM: usize = 65_536;

// Why nothing more can be taken: the input ended, a slice has more elements than the lent memory, a read failed.
#[derive(Clone, Copy, Debug, PartialEq, Eq)]
pub enum Stop {
    Ended,
    TooLarge,
    ReadFailed,
}

// A reader, its buffer, of which what lies from `at` to `end` is still to be taken, and why nothing more can be.
#[derive(Drop)]
pub struct Input<R> {
    from: R,
    buffer: [u8; ROOM],
    at: usize,
    end: usize,
    stop: Option<Stop>,
    ghost within: { (at ≤ end) × (end ≤ ROOM) },
}

// An input goes on in a copy as it would: with its place, its buffer and its stop, and a copy of its reader.
impl<R: Clone> Clone for Input<R> {
    ghost is_clone = { λ s c. R.is_clone s.from c.from × (c.buffer ≡ s.buffer) × (c.at ≡ s.at) × (c.end ≡ s.end) × (c.stop ≡ s.stop) };

    ghost is_infallible = { λ s. R.is_infallible s.from };

    fn clone(&self) -> Result<Input<R>, AllocError> {
        Ok(Input {
            from: self.from.clone()?,
            buffer: self.buffer,
            at: self.at,
            end: self.end,
            stop: self.stop,
        })
    }
}

impl<R: Copy> Copy for Input<R> {}

// A number of its bytes, the lowest first.
fn number_of(bytes: [u8; 8]) -> u64
    ensures { result ≡ number_at 8 bytes 0 }
{
    u64::from_le_bytes(bytes)
}

impl<R> Input<R> {
    ghost use Rattle.std.specs.List.{slice_range};
    ghost use Rattle.input.specs.Held as rule;

    // Before the first read.
    pub fn new(from: R) -> Input<R>
        ensures stop { result.stop ≡ None }
        ensures left { (result.at ≡ 0) × (result.end ≡ 0) }
        ensures before { result.from ≡ from }
    {
        Input {
            from,
            buffer: [0; ROOM],
            at: 0,
            end: 0,
            stop: None,
        }
    }

    // Over a buffer of which what lies from `at` to `end` is still to be taken, or nothing where the buffer has no such part.
    pub fn over(from: R, buffer: [u8; ROOM], at: usize, end: usize, stop: Option<Stop>) -> Input<R>
        ensures left { (result.at, result.end) ≡ rule.part_left at end }
        ensures stop { result.stop ≡ stop }
        ensures buffer { result.buffer ≡ buffer }
        ensures before { result.from ≡ from }
    {
        let (at, end) = if at <= end && end <= ROOM {
            (at, end)
        } else {
            (0, 0)
        };
        Input {
            from,
            buffer,
            at,
            end,
            stop,
        }
    }

    // What of the buffer is still to be taken.
    pub fn left(&self) -> &[u8]
        ensures { result.now ≡ slice_range self.now.buffer self.now.at self.now.end }
    {
        &self.buffer[self.at..self.end]
    }

    // Why nothing more can be taken.
    pub fn stop(&self) -> Option<Stop>
        ensures { result ≡ self.now.stop }
    {
        self.stop
    }

    // An input that stops here: nothing of its buffer is left.
    pub fn stopped(self, stop: Stop) -> Input<R>
        ensures left { (result.at ≡ 0) × (result.end ≡ 0) }
        ensures stop { result.stop ≡ Some stop }
        ensures before { result.from ≡ self.from }
    {
        Input {
            from: self.from,
            buffer: self.buffer,
            at: 0,
            end: 0,
            stop: Some(stop),
        }
    }
}

impl<R: Read> Input<R> {
    ghost use Rattle.input.specs.Held.{TakenFrom, Stands, Stops};
    ghost use Rattle.input.specs.Held as rule;

    // At least one byte is to be taken from the buffer, which is filled anew where there is none.
    #[tactic(auto, using(crate::proofs::Laws::held))]
    fn fill(&mut self) -> Result<(), Stop>
        ensures filled { OnOk result (self.new.at < self.new.end) }
        ensures held { rule.holds 1 self.old ≡ true → (result ≡ Ok tt) × (self.new ≡ self.old) }
        ensures stands { Stands self.old self.new result }
        ensures stops { Stops self.new result }
    {
        if let Some(stop) = self.stop {
            return Err(stop);
        }
        if self.at < self.end {
            return Ok(());
        }
        match self.from.read(&mut self.buffer) {
            Err(_) => Err(self.halt(Stop::ReadFailed)),
            Ok(0) => Err(self.halt(Stop::Ended)),
            Ok(count) => {
                self.at = 0;
                self.end = count;
                Ok(())
            }
        }
    }

    // The input stops here.
    fn halt(&mut self, stop: Stop) -> Stop
        ensures same { result ≡ stop }
        ensures stops { self.new.stop ≡ Some stop }
    {
        self.stop = Some(stop);
        stop
    }

    pub fn byte(&mut self) -> Result<u8, Stop>
        ensures held { rule.holds 1 self.old ≡ true → TakenFrom 1 self.old self.new result }
        ensures stands { Stands self.old self.new result }
        ensures stops { Stops self.new result }
    {
        self.fill()?;
        let byte = self.buffer[self.at];
        self.at += 1;
        Ok(byte)
    }

    // A number byte by byte: it goes on in the next piece of the input.
    fn number_by_bytes(&mut self) -> Result<u64, Stop>
        requires { self.old.stop ≡ None }
        ensures { Stops self.new result }
    {
        let mut bytes = [0u8; 8];
        for byte in &mut bytes {
            *byte = self.byte()?;
        }
        Ok(number_of(bytes))
    }

    // A number of 64 bits, its lowest byte first.
    #[tactic(auto, using(crate::proofs::Laws::held))]
    pub fn number(&mut self) -> Result<u64, Stop>
        ensures held { rule.holds 8 self.old ≡ true → TakenFrom 8 self.old self.new result }
        ensures stands { Stands self.old self.new result }
        ensures stops { Stops self.new result }
    {
        if let Some(stop) = self.stop {
            return Err(stop);
        }
        if let Some(bytes) = self.buffer[self.at..self.end].first_chunk::<8>() {
            let value = number_of(*bytes);
            self.at += 8;
            return Ok(value);
        }
        self.number_by_bytes()
    }

    // A slice of numbers: their count, then the numbers, to the front of the lent words, which is answered.
    pub fn numbers<'a>(&mut self, words: &'a mut [u64]) -> Result<&'a mut [u64], Stop>
        ensures bound { IfOk result (λ front. length front.now ≤ length words.old) }
        ensures stands { Stands self.old self.new result }
        ensures stops { Stops self.new result }
    {
        let count = self.number()? as usize;
        if words.len() < count {
            return Err(self.halt(Stop::TooLarge));
        }
        let front = &mut words[..count];
        for word in front.iter_mut() {
            *word = self.number()?;
        }
        Ok(front)
    }

    // A slice of bytes: their count, then the bytes, to the front of the lent text, which is answered. They come piece by piece, as the buffer has them.
    pub fn bytes<'a>(&mut self, text: &'a mut [u8]) -> Result<&'a mut [u8], Stop>
        ensures bound { IfOk result (λ front. length front.now ≤ length text.old) }
        ensures stands { Stands self.old self.new result }
        ensures stops { Stops self.new result }
    {
        let count = self.number()? as usize;
        if text.len() < count {
            return Err(self.halt(Stop::TooLarge));
        }
        let front = &mut text[..count];
        let mut filled = 0usize;
        while filled < count {
            self.fill()?;
            let more = (count - filled).min(self.end - self.at);
            front[filled..filled + more].copy_from_slice(&self.buffer[self.at..self.at + more]);
            self.at += more;
            filled += more;
        }
        Ok(front)
    }
}

#[cfg(test)]
mod tests {
    use super::*;

    // A copy takes no memory where its reader takes none, and goes on from where the input stood.
    #[test]
    fn a_copy_goes_on(rt: HostRuntime) {
        let bytes = [7u8, 8, 9];
        let mut input = Input::new(&bytes[..]);
        assert_eq!(rt; input.byte(), Ok(7));
        let mut copy = input.clone().expect(&rt, "no memory is taken");
        assert_eq!(rt; copy.byte(), Ok(8));
        assert_eq!(rt; copy.byte(), Ok(9));
        assert_eq!(rt; copy.byte(), Err(Stop::Ended));
        assert_eq!(rt; input.byte(), Ok(8));
    }
}
