// The fast way past UTF-8 of any alphabet: blocks of bytes, each byte judged by the three before it. A block may end within a character: then the answer is where
// that character begins. What is left goes character by character, in `utf8`.
#![tactic(auto)]

ghost use Rattle.std.specs.Prelude.{◌≡◌, true, ℕ, ◌+◌, ◌≤◌, ◌<◌, length};
ghost use Rattle.text.specs.Utf8.{utf8_end};
ghost use Rattle.characters.specs.Inside.Fits as rule;

// The least first byte of a character of two bytes, of three, of four. No tail is as large.
const OF_TWO: u8 = 0xC2;

const OF_THREE: u8 = 0xE0;

const OF_FOUR: u8 = 0xF0;

// Whether the byte `d` may stand behind `a`, `b` and `c`, in the RFC's rows: a tail where one of them wants it, and nowhere else; a second byte within the bounds
// that its first has; and no byte that is in no row.
fn fits(a: u8, b: u8, c: u8, d: u8) -> bool
    ensures { result ≡ rule.fits a b c d }
{
    let tail = (0x80 <= d) & (d <= 0xBF);
    let wanted = (OF_TWO <= c) | (OF_THREE <= b) | (OF_FOUR <= a);
    let low = (0x80 <= d) & (d <= 0x9F);
    let lowest = (0x80 <= d) & (d <= 0x8F);
    let wrong = ((c == 0xE0) & low)
        | ((c == 0xED) & !low)
        | ((c == 0xF0) & lowest)
        | ((c == 0xF4) & !lowest);
    let never = ((0xC0 <= d) & (d <= 0xC1)) | (0xF5 <= d);
    !(tail ^ wanted) & !wrong & !never
}

// How many bytes before a byte tell whether it fits.
pub const BEFORE: usize = 3;

// How many bytes are judged in one go.
const BLOCK: usize = 64;

// Whether each byte of the block behind the three at `at` fits. All of them are looked at, with no way out before the last and by compares alone, so that the
// compiler takes many at once.
fn block_fits(text: &[u8], at: usize) -> bool
    requires { at + 67 ≤ length text.now }
    ensures { result ≡ true → (j : ℕ) → at ≤ j → j < at + 64 → rule.fits_at text.now j ≡ true }
{
    let mut all = true;
    for k in 0..BLOCK {
        let i = at + k;
        all = all & fits(text[i], text[i + 1], text[i + 2], text[i + 3]);
    }
    all
}

// Where the character begins that is not whole within the three bytes at `at`, or else the place behind them.
fn last_start(text: &[u8], at: usize) -> usize
    requires { at + 3 ≤ length text.now }
    ensures { result ≡ rule.last_start text.now at }
{
    if OF_TWO <= text[at + 2] {
        return at + 2;
    }
    if OF_THREE <= text[at + 1] {
        return at + 1;
    }
    if OF_FOUR <= text[at] {
        return at;
    }
    at + BEFORE
}

// Past characters from `at` on, as far as blocks go; where there is no whole block, or no three bytes before `at`, that is `at`. Blocks of ASCII go faster still.
pub fn blocks_end(text: &[u8], at: usize) -> usize
    ensures { utf8_end text.now at ≡ utf8_end text.now result }
{
    if text.len() < BEFORE + BLOCK {
        return at;
    }
    let last = text.len() - (BEFORE + BLOCK);
    if at < BEFORE {
        return at;
    }
    let mut i = at - BEFORE;
    if last < i {
        return at;
    }
    // Between two characters this never holds.
    if last_start(text, i) != at {
        return at;
    }
    // A `while`: the step varies.
    while i <= last {
        let ascii = blocks::ascii_blocks(text, i);
        if i + BEFORE < ascii {
            i = ascii - BEFORE;
        } else {
            if block_fits(text, i) {
                i += BLOCK;
            } else {
                return last_start(text, i);
            }
        }
    }
    last_start(text, i)
}
