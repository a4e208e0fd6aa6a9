// An input that fits into memory, at once.
ghost use Rattle.std.specs.Prelude.{◌≡◌, ◌≤◌, length, take, IfOk, IfErr, IfSome};

use std::io;
use std::io::Read;

// A read that failed, and how many bytes came before it.
#[derive(Clone, Copy)]
pub struct Cut {
    pub count: usize,
    pub error: io::Error,
}

// Reads until the text is full, the input ends or a read fails, and answers how many bytes came, or why a read failed.
pub fn read_all<R: Read>(from: &mut R, text: &mut [u8]) -> Result<usize, Cut>
    ensures bound { IfOk result (λ count. count ≤ length text.new) }
    ensures short { IfErr result (λ cut. cut.count ≤ length text.new) }
    ensures came { IfOk result (λ count. IfSome (R.remaining from.old) (λ xs. take count text.new ≡ take (length text.new) xs)) }
{
    // What a read brings says how far it goes on: no index is counted.
    let mut count = 0usize;
    while count < text.len() {
        match from.read(&mut text[count..]) {
            Err(error) => return Err(Cut { count, error }),
            Ok(0) => return Ok(count),
            Ok(more) => count += more,
        }
    }
    Ok(count)
}
