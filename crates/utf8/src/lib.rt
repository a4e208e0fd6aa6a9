// UTF-8 as RFC 3629, section 4, lays it out: a function for each of its names and a line for each of its rows, in its order.
// Each takes any text and any place. The fast ways stand apart: past ASCII in `blocks`, past any alphabet in `characters`.
#![tactic(auto)]

ghost use Rattle.std.specs.Prelude.{◌≡◌, ◌+◌};
ghost use Rattle.text.specs.Utf8 as rule;
ghost use Rattle.text.specs.Utf8.{◌to◌};
ghost use Rattle.utf8.specs.Answers.{taken, char_of};

// %xLO-HI, of the byte so many places after `at`: so no place is made that may be past the last number.
fn octet(text: &[u8], at: usize, place: usize, lo: u8, hi: u8) -> bool
    ensures { taken result (at + place + 1) ≡ rule.octet (lo to hi) text.now (at + place) }
{
    if text.len() <= place {
        return false;
    }
    if text.len() - place <= at {
        return false;
    }
    let b = text[at + place];
    (lo <= b) & (b <= hi)
}

// UTF8-tail   = %x80-BF
fn utf8_tail(text: &[u8], at: usize, place: usize) -> bool
    ensures { taken result (at + place + 1) ≡ rule.octet rule.UTF8-tail text.now (at + place) }
{
    octet(text, at, place, 0x80, 0xBF)
}

// UTF8-1      = %x00-7F
fn utf8_1(text: &[u8], at: usize) -> bool
    ensures { taken result (at + 1) ≡ rule.one_of rule.UTF8-1 text.now at }
{
    octet(text, at, 0, 0x00, 0x7F)
}

// UTF8-2      = %xC2-DF UTF8-tail
fn utf8_2(text: &[u8], at: usize) -> bool
    ensures { taken result (at + 2) ≡ rule.one_of rule.UTF8-2 text.now at }
{
    if octet(text, at, 0, 0xC2, 0xDF) {
        return utf8_tail(text, at, 1);
    }
    false
}

// UTF8-3      = %xE0 %xA0-BF UTF8-tail / %xE1-EC 2( UTF8-tail ) /
//               %xED %x80-9F UTF8-tail / %xEE-EF 2( UTF8-tail )
fn utf8_3(text: &[u8], at: usize) -> bool
    ensures { taken result (at + 3) ≡ rule.one_of rule.UTF8-3 text.now at }
{
    if octet(text, at, 0, 0xE0, 0xE0) {
        return octet(text, at, 1, 0xA0, 0xBF) & utf8_tail(text, at, 2);
    }
    if octet(text, at, 0, 0xE1, 0xEC) {
        return utf8_tail(text, at, 1) & utf8_tail(text, at, 2);
    }
    if octet(text, at, 0, 0xED, 0xED) {
        return octet(text, at, 1, 0x80, 0x9F) & utf8_tail(text, at, 2);
    }
    if octet(text, at, 0, 0xEE, 0xEF) {
        return utf8_tail(text, at, 1) & utf8_tail(text, at, 2);
    }
    false
}

// UTF8-4      = %xF0 %x90-BF 2( UTF8-tail ) / %xF1-F3 3( UTF8-tail ) /
//               %xF4 %x80-8F 2( UTF8-tail )
fn utf8_4(text: &[u8], at: usize) -> bool
    ensures { taken result (at + 4) ≡ rule.one_of rule.UTF8-4 text.now at }
{
    if octet(text, at, 0, 0xF0, 0xF0) {
        return octet(text, at, 1, 0x90, 0xBF) & utf8_tail(text, at, 2) & utf8_tail(text, at, 3);
    }
    if octet(text, at, 0, 0xF1, 0xF3) {
        return utf8_tail(text, at, 1) & utf8_tail(text, at, 2) & utf8_tail(text, at, 3);
    }
    if octet(text, at, 0, 0xF4, 0xF4) {
        return octet(text, at, 1, 0x80, 0x8F) & utf8_tail(text, at, 2) & utf8_tail(text, at, 3);
    }
    false
}

// UTF8-char   = UTF8-1 / UTF8-2 / UTF8-3 / UTF8-4
// The length of the character at `at`, where there is one.
pub fn utf8_char(text: &[u8], at: usize) -> Option<usize>
    ensures { char_of result at ≡ rule.utf8_char text.now at }
{
    if utf8_1(text, at) {
        return Some(1);
    }
    if utf8_2(text, at) {
        return Some(2);
    }
    if utf8_3(text, at) {
        return Some(3);
    }
    if utf8_4(text, at) {
        return Some(4);
    }
    None
}

// Past the first characters, up to where as many bytes stand before as `characters` looks back.
fn first_end(text: &[u8]) -> usize
    ensures { rule.utf8_end text.now 0 ≡ rule.utf8_end text.now result }
{
    let mut end = 0;
    // A `while`, as in `utf8_end`: the step varies.
    while end < characters::BEFORE {
        let Some(n) = utf8_char(text, end) else {
            return end;
        };
        end += n;
    }
    end
}

// UTF8-octets = *( UTF8-char )
// The text's length where it is UTF-8, else the first byte of the first ill-formed sequence. Blocks of characters are passed at once, and then runs of UTF8-1: so
// character by character goes only what is too short for a block, or the block that is ill-formed.
pub fn utf8_end(text: &[u8]) -> usize
    ensures { result ≡ rule.utf8_end text.now 0 }
{
    let mut i = characters::blocks_end(text, first_end(text));
    while i < text.len() {
        let Some(n) = utf8_char(text, i) else {
            return i;
        };
        i = blocks::ascii_end(text, i + n);
    }
    i
}
