// What is found by many bytes at once: a line's end, the first of a few bytes, the end of a run of blanks, digits or ASCII. Where the blocks end, a scan
// goes on byte by byte, so that each answer is the rule's own.
#![tactic(auto)]

ghost use Rattle.std.specs.Prelude.{◌≡◌, true, ℕ, Bool, List, ◌&&◌, not, leb, eqb, ◌≤◌, ◌<◌};
ghost use Rattle.std.specs.List.{list_all};
ghost use Rattle.std.specs.Fn.{FnReturnsAt};
ghost use Rattle.text.specs.Nom.{bytes, is_ascii, is_digit, is_one_of, is_none_of, run_end, is_multispace};

// Past the blocks of `SIZE` bytes from `at` on that pass a test.
fn passed_end<const SIZE: usize, F: Fn(&[u8]) -> bool>(text: &[u8], at: usize, passes: F) -> usize
    requires size { (0 < SIZE) × (SIZE ≤ 64) }
    requires test { F.IsAlwaysCallable passes }
    ensures on { at ≤ result }
    ensures run { (p : ℕ → Bool) → ((block : List ℕ) → FnReturnsAt F.Fn passes block true → list_all p block ≡ true) → run_end p text.now at ≡ run_end p text.now result }
{
    if text.len() < at {
        return at;
    }
    let (blocks, _) = text[at..].as_chunks::<SIZE>();
    for (k, block) in blocks.iter().enumerate() {
        if !passes(block) {
            return at + SIZE * k;
        }
    }
    at + SIZE * blocks.len()
}

// Whether each byte of a block is one from `lo` to `hi`. All of them are looked at, with no way out before the last, so that the compiler takes many
// at once.
fn all_within(block: &[u8], lo: u8, hi: u8) -> bool
    ensures { result ≡ list_all (λ x. leb lo x && leb x hi) block.now }
{
    let mut within = true;
    for x in block {
        within = within & ((lo <= *x) & (*x <= hi));
    }
    within
}

// How many bytes of a line are looked at in one go.
const LINE_BLOCK: usize = 16;

// The byte after CR: neither it nor any above ends a line.
const ABOVE_CR: u8 = 0x0E;

// Past blocks of bytes above CR, which end no line.
fn line_blocks_end(text: &[u8], at: usize) -> usize
    ensures { run_end (is_none_of (bytes "\r\n")) text.now at ≡ run_end (is_none_of (bytes "\r\n")) text.now result }
{
    passed_end::<LINE_BLOCK, _>(text, at, |block| all_within(block, ABOVE_CR, 0xFF))
}

// The end of the line at `at`: the first CR or LF from there on, or where the text ends.
pub fn line_end(text: &[u8], at: usize) -> usize
    ensures { result ≡ run_end (is_none_of (bytes "\r\n")) text.now at }
{
    let blocks = line_blocks_end(text, at);
    let words = words::above_cr_end(text, blocks);
    scan::until(text, words, b"\r\n")
}

// How many ASCII bytes are passed in one go.
const ASCII_BLOCK: usize = 64;

const LAST_ASCII: u8 = 0x7F;

// Past the blocks of ASCII bytes from `at` on: it never goes back. In other alphabets most runs of them are empty, and the first byte tells so at once, where
// the call stands.
#[inline(always)]
pub fn ascii_blocks(text: &[u8], at: usize) -> usize
    ensures { (at ≤ result) × (run_end is_ascii text.now at ≡ run_end is_ascii text.now result) }
{
    if LAST_ASCII < scan::byte_at(text, at, 0) {
        return at;
    }
    passed_end::<ASCII_BLOCK, _>(text, at, |block| all_within(block, 0x00, LAST_ASCII))
}

// Past ASCII bytes.
pub fn ascii_end(text: &[u8], at: usize) -> usize
    ensures { result ≡ run_end is_ascii text.now at }
{
    scan::ascii_end(text, ascii_blocks(text, at))
}

// How many bytes are looked at in one go for a set of bytes: of fewer the compiler lays the tests out one by one before it knows the set.
const SET_BLOCK: usize = 32;

// As many more where none of the set is to be there: of 32 the compiler lays three tests out one by one, which takes twenty times as long.
const FIND_BLOCK: usize = 64;

// Whether no byte of a block is `b`.
#[inline(always)]
fn lacks(block: &[u8], b: u8) -> bool
    ensures { result ≡ list_all (λ x. not (eqb b x)) block.now }
{
    let mut lacks = true;
    for x in block {
        lacks = lacks & (b != *x);
    }
    lacks
}

// Whether no byte of a block is one of `set`. Each of these is looked for apart: of one test for all of them the compiler would make a table of bits, byte
// by byte.
fn none_of<const N: usize>(block: &[u8], set: &[u8; N]) -> bool
    ensures { result ≡ true → list_all (is_none_of set.now) block.now ≡ true }
{
    let mut none = true;
    for b in set {
        none = none & lacks(block, *b);
    }
    none
}

// The first place from `at` on whose byte is one of `set`, or where the text ends, for bytes that are far away as a rule: by blocks, then by words, then byte
// by byte.
#[inline(never)]
pub fn find<const N: usize>(text: &[u8], at: usize, set: &[u8; N]) -> usize
    ensures { result ≡ run_end (is_none_of set.now) text.now at }
{
    let blocks = passed_end::<FIND_BLOCK, _>(
        text,
        at,
        |block: &[u8]| -> bool
            ensures { result ≡ true → list_all (is_none_of set.entry.now) block.now ≡ true }
        { none_of(block, set) },
    );
    let words = words::none_of_end(text, blocks, set);
    scan::until(text, words, set)
}

// How many bytes are looked at one by one first: most names and values end within them.
const NEAR: usize = 16;

// What `find` finds, and sooner where it is near. Without `find` this is small, and stands in its callers with their bytes as constants.
pub fn until<const N: usize>(text: &[u8], at: usize, set: &[u8; N]) -> usize
    ensures { result ≡ run_end (is_none_of set.now) text.now at }
{
    if text.len() <= at {
        return at;
    }
    let near = at + NEAR.min(text.len() - at);
    for i in at..near {
        if scan::is_one_of(set, text[i]) {
            return i;
        }
    }
    find(text, near, set)
}

// What `until` finds, for parts of which most are either empty or longer than a word, as titles are: the first byte, then words of eight.
pub fn words_until<const N: usize>(text: &[u8], at: usize, set: &[u8; N]) -> usize
    ensures { result ≡ run_end (is_none_of set.now) text.now at }
{
    if text.len() <= at {
        return at;
    }
    if scan::is_one_of(set, text[at]) {
        return at;
    }
    let words = words::none_of_end(text, at, set);
    scan::until(text, words, set)
}

// Whether `x` is one of `set`, of which all bytes are looked at.
fn is_in<const N: usize>(set: &[u8; N], x: u8) -> bool
    ensures { result ≡ is_one_of set.now x }
{
    let mut one = false;
    for b in set {
        one = one | (*b == x);
    }
    one
}

// Whether each byte of a block is one of `set`. All of them are looked at, as in `all_within`.
fn all_in<const N: usize>(block: &[u8], set: &[u8; N]) -> bool
    ensures { result ≡ list_all (is_one_of set.now) block.now }
{
    let mut all = true;
    for x in block {
        all = all & is_in(set, *x);
    }
    all
}

// Past bytes that are one of `set`, by blocks and then byte by byte.
#[inline(never)]
fn while_far<const N: usize>(text: &[u8], at: usize, set: &[u8; N]) -> usize
    ensures { result ≡ run_end (is_one_of set.now) text.now at }
{
    let blocks = passed_end::<SET_BLOCK, _>(
        text,
        at,
        |block: &[u8]| -> bool
            ensures { result ≡ list_all (is_one_of set.entry.now) block.now }
        { all_in(block, set) },
    );
    scan::while_in(text, blocks, set)
}

// Past bytes that are one of `set`. Most runs of them are empty, and the first byte tells so at once; of the others most have one byte. As in `until`, these
// tests stand in the callers.
pub fn while_in<const N: usize>(text: &[u8], at: usize, set: &[u8; N]) -> usize
    ensures { result ≡ run_end (is_one_of set.now) text.now at }
{
    if !is_in(set, scan::byte_at(text, at, 0)) {
        return at;
    }
    if !is_in(set, scan::byte_at(text, at, 1)) {
        return scan::while_in(text, at, set);
    }
    while_far(text, at, set)
}

// Past blanks: spaces, tabs, CRs and LFs. A byte above the space tells at once that there are none.
pub fn multispace0(text: &[u8], at: usize) -> usize
    ensures { result ≡ run_end is_multispace text.now at }
{
    if b' ' < scan::byte_at(text, at, 0) {
        return at;
    }
    while_in(text, at, b" \t\r\n")
}

// How many digits are passed in one go.
const DIGIT_BLOCK: usize = 32;

// The end of the run of digits at `at`. Most runs are shorter than a block: then no digit stands where the block ends, and none is looked at.
pub fn digits_end(text: &[u8], at: usize) -> usize
    ensures { result ≡ run_end is_digit text.now at }
{
    if scan::is_digit(scan::byte_at(text, at, DIGIT_BLOCK - 1)) {
        let blocks = passed_end::<DIGIT_BLOCK, _>(text, at, |block| all_within(block, b'0', b'9'));
        return scan::digits_end(text, blocks);
    }
    scan::digits_end(text, at)
}
