// parser.rs, "Util": lines, numbers, byte ranges.
ghost use Rattle.std.specs.Prelude.{◌≡◌, true, ◌-◌, ◌≤◌, ltb};
ghost use Rattle.text.specs.Nom.{bytes, is_digit, tag, opt, preceded};
ghost use Rattle.text.specs.Util as rule;
ghost use Rattle.text.specs.Answers.{span_res};
ghost use Rattle.leaves.specs.Inside.Ends.{pick_parsed, placed_of};
ghost use Rattle.leaves.specs.Answers.{parsed_of, byte_range_res};

use text::{IResult, Span, Why};

// A line up to CR LF, LF or the text's end, and the place after its end. A CR that no LF follows fails.
pub fn consume_line(text: &[u8], at: usize) -> IResult<Span>
    ensures { span_res result ≡ rule.consume_line text.now at }
{
    let end = blocks::line_end(text, at);
    let line = Span { start: at, end };
    if scan::starts_with(text, end, b"\r") {
        if scan::starts_with(text, end, b"\r\n") {
            return Ok((line, end + 2));
        }
        return Err(Why::LoneCr);
    }
    Ok((line, scan::after_tag(text, end, b"\n")))
}

// What the digits at a place write, with the place after them. No Result: too large is an error to some callers and a value to others, and has a place too.
#[derive(Clone, Copy)]
pub enum Parsed {
    NoDigits,
    TooLarge(usize),
    Value(u64, usize),
}

// Up to this value ten times it and any digit fit.
const SAFE: u64 = 1_844_674_407_370_955_160;

fn digit_value(b: u8) -> u64
    requires { is_digit b ≡ true }
    ensures { (result ≡ b - 48) × (result ≤ 9) }
{
    (b - b'0') as u64
}

fn parsed_to(v: u64, at: usize, end: usize) -> Parsed
    ensures { result ≡ pick_parsed (ltb at end) v end }
{
    if at < end {
        Parsed::Value(v, end)
    } else {
        Parsed::NoDigits
    }
}

// Digits of any number: only a value that passes 2^64 - 1 is too large, however many zeros stand in front. Zeros in front write 0, and are passed at once, as
// are the digits behind one that is too much.
fn long_number(text: &[u8], at: usize) -> Parsed
    ensures { parsed_of result ≡ rule.parsed text.now at }
{
    let first = blocks::while_in(text, at, b"0");
    let mut v: u64 = 0;
    for i in first..text.len() {
        let b = text[i];
        if !scan::is_digit(b) {
            return parsed_to(v, at, i);
        }
        let d = digit_value(b);
        if SAFE < v && (u64::MAX - d) / 10 < v {
            return Parsed::TooLarge(blocks::digits_end(text, i));
        }
        v = v * 10 + d;
    }
    parsed_to(v, at, text.len())
}

// Numbers of so many digits fit, whatever their digits.
const FITTING: usize = 19;

// What `long_number` reads. So many digits fit whatever they are, so that a number of few, as nearly all are, is read here without a look at its size.
pub fn number(text: &[u8], at: usize) -> Parsed
    ensures { parsed_of result ≡ rule.parsed text.now at }
{
    let mut v: u64 = 0;
    for i in at..text.len() {
        let b = text[i];
        if !scan::is_digit(b) {
            return parsed_to(v, at, i);
        }
        if FITTING <= i - at {
            return long_number(text, at);
        }
        v = v * 10 + digit_value(b);
    }
    parsed_to(v, at, text.len())
}

// struct ByteRange { length: u64, offset: Option<u64> }
#[derive(Clone, Copy)]
pub struct ByteRange {
    pub length: u64,
    pub offset: Option<u64>,
}

// An offset and the place after it, or none and the same place.
#[derive(Clone, Copy)]
struct Placed {
    offset: Option<u64>,
    end: usize,
}

// Where what follows `@` is no number, nothing is taken.
fn offset_val(text: &[u8], at: usize) -> Placed
    ensures { placed_of result ≡ opt (preceded (tag (bytes "@")) rule.number) text.now at }
{
    let none = Placed {
        offset: None,
        end: at,
    };
    if !scan::starts_with(text, at, b"@") {
        return none;
    }
    match number(text, at + 1) {
        Parsed::Value(o, end) => {
            let offset = Some(o);
            Placed { offset, end }
        }
        Parsed::TooLarge(_) => none,
        Parsed::NoDigits => none,
    }
}

// A length, perhaps with an offset.
pub fn byte_range_val(text: &[u8], at: usize) -> IResult<ByteRange>
    ensures { byte_range_res result ≡ rule.byte_range_val text.now at }
{
    match number(text, at) {
        Parsed::Value(length, end) => {
            let placed = offset_val(text, end);
            let offset = placed.offset;
            Ok((ByteRange { length, offset }, placed.end))
        }
        Parsed::TooLarge(_) => Err(Why::TooLarge),
        Parsed::NoDigits => Err(Why::NoDigits),
    }
}
