// Eight bytes of a text at once, as one number: where among them the first stands that may end a line, or that is one of a few.
#![tactic(auto)]

ghost use Rattle.std.specs.Prelude.{◌≡◌, Bool, map, ℕ, ◌+◌, ◌^◌, ◌≤◌, ◌<◌, length, take, drop};
ghost use Rattle.text.specs.Nom.{bytes, is_none_of, run_end};
ghost use Rattle.words.specs.Inside.Word.{bytes_of, mark, mark_of, Unmarked};

const WORD: usize = 8;

const BITS_IN_BYTE: u32 = 8;

// The eight bytes at `at`, the first of them the lowest.
fn word_at(text: &[u8], at: usize) -> u64
    requires { at + 8 ≤ length text.now }
    ensures { bytes_of 8 result ≡ take 8 (drop at text.now) }
{
    u64::from_le_bytes(<[u8; WORD]>::try_from(&text[at..at + WORD]).unwrap())
}

// In each byte: its highest bit; the others; and what takes the first byte above CR (0x0E), and each byte above it, to the highest bit.
const TOP_BITS: u64 = 0x8080_8080_8080_8080;

const LOW_BITS: u64 = 0x7F7F_7F7F_7F7F_7F7F;

const TO_TOP: u64 = 0x7272_7272_7272_7272;

// The highest bit of each byte of `word` that is not above CR, and no other bit. No sum within a byte reaches the next one.
fn marks(word: u64) -> u64
    ensures { bytes_of 8 result ≡ map mark (bytes_of 8 word) }
{
    let low = (word & LOW_BITS) + TO_TOP;
    TOP_BITS - ((low | word) & TOP_BITS)
}

// Past the bytes from `at` on in whose words no byte is marked, up to the first that is, as far as whole words go.
fn unmarked_end<F: Fn(u64) -> u64>(text: &[u8], at: usize, marks: F) -> usize
    requires { F.IsAlwaysCallable marks }
    ensures { (p : ℕ → Bool) → ((word found : ℕ) → word < 2 ^ 64 → F.post marks word found → Unmarked p word found) → run_end p text.now at ≡ run_end p text.now result }
{
    if text.len() < WORD {
        return at;
    }
    let last = text.len() - WORD;
    // A `while`: a `for` over `as_chunks` keeps two more counters, and cost a short name or title 10 to 30 %.
    let mut i = at;
    while i <= last {
        let found = marks(word_at(text, i));
        if found != 0 {
            return i + (u64::trailing_zeros(found) / BITS_IN_BYTE) as usize;
        }
        i += WORD;
    }
    i
}

// Past the bytes above CR from `at` on, as far as whole words go.
pub fn above_cr_end(text: &[u8], at: usize) -> usize
    ensures { run_end (is_none_of (bytes "\r\n")) text.now at ≡ run_end (is_none_of (bytes "\r\n")) text.now result }
{
    unmarked_end(text, at, marks)
}

// The same byte eight times, times that byte.
const ONES: u64 = 0x0101_0101_0101_0101;

// The highest bit of each byte of `word` that is `b`, and no other bit: nothing is left of such a byte where the bits of `b` are taken out.
fn marks_of(word: u64, b: u8) -> u64
    ensures { bytes_of 8 result ≡ map (mark_of b) (bytes_of 8 word) }
{
    let left = word ^ (ONES * (b as u64));
    let low = (left & LOW_BITS) + LOW_BITS;
    TOP_BITS - ((low | left) & TOP_BITS)
}

// Bits in each byte of `word` that is one of `set`, and in no other.
fn marks_of_any<const N: usize>(word: u64, set: &[u8; N]) -> u64
    ensures { Unmarked (is_none_of set.now) word result }
{
    let mut found = 0;
    for b in set {
        found |= marks_of(word, *b);
    }
    found
}

// Past the bytes from `at` on that are none of `set`, as far as whole words go.
pub fn none_of_end<const N: usize>(text: &[u8], at: usize, set: &[u8; N]) -> usize
    ensures { run_end (is_none_of set.now) text.now at ≡ run_end (is_none_of set.now) text.now result }
{
    unmarked_end(
        text,
        at,
        |word: u64| -> u64
            ensures { Unmarked (is_none_of set.entry.now) word result }
        { marks_of_any(word, set) },
    )
}
