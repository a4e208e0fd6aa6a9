// Lines that say nothing, many bytes at once: what is no tag, and has no CR alone, is passed wherever its lines end.
ghost use Rattle.std.specs.Prelude.{◌≡◌, true, ℕ, ◌+◌, ◌≤◌, ◌<◌, length};
ghost use Rattle.verdict.specs.Verdict.{verdict_from};
ghost use Rattle.verdict.specs.Inside.Quiet.{quiet_at};

// How many bytes are looked at in one go, and how many must be there for that: a byte is passed by those behind it, CR, LF and one of the next line.
const QUIET_BLOCK: usize = 32;

const QUIET_ROOM: usize = QUIET_BLOCK + 3;

// Whether nothing is said at each of the `size` bytes at `at`. All of them are looked at, with no way out before the last, so that the compiler takes
// many at once.
fn block_quiet(text: &[u8], at: usize, size: usize) -> bool
    requires { at + size + 3 ≤ length text.now }
    ensures { result ≡ true → (j : ℕ) → at ≤ j → j < at + size → quiet_at text.now j ≡ true }
{
    let mut quiet = true;
    for k in 0..size {
        let i = at + k;
        let x = text[i];
        let y = text[i + 1];
        let z = text[i + 2];
        quiet = quiet
            & ((b'\r' == x)
                | (b'\n' == x)
                | ((b'#' != x) & (b'#' != y) & ((b'\r' != y) | (b'\n' == z))));
    }
    quiet
}

// Past blocks at which nothing is said. A line that begins with `#` is not looked at.
pub(crate) fn quiet_end(text: &[u8], at: usize) -> usize
    ensures { (at ≤ result) × (verdict_from text.now at ≡ verdict_from text.now result) }
{
    if text.len() < QUIET_ROOM {
        return at;
    }
    let last = text.len() - QUIET_ROOM;
    if scan::byte_at(text, at, 0) == b'#' {
        return at;
    }
    // A `while`: a block is passed whole.
    let mut i = at;
    while i <= last {
        if block_quiet(text, i, QUIET_BLOCK) {
            i += QUIET_BLOCK;
        } else {
            return i;
        }
    }
    i
}
