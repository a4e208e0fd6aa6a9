// parser.rs, `float` and `duration_title_tag`: what stands behind `#EXTINF:`.
ghost use Rattle.std.specs.Prelude.{◌≡◌, ◌^◌, ◌≤◌, ◌<◌};
ghost use Rattle.std.proofs.Math.Option.{some};
ghost use Rattle.text.specs.Nom.{bytes, tag, map, opt, preceded};
ghost use Rattle.lengths.specs.Duration as rule;
ghost use Rattle.lengths.specs.Answers.{length_seen, length_res, kept, digits_of, digits_res, extinf_res, after, end_of, extinf_end};

use leaves::util;
use leaves::util::Parsed;
use tables::layout::SECOND;
use text::{IResult, Span, Why};

// 01 allows nine digits on each side of the point: then ns fit, and are exact.
const SIDE_DIGITS: usize = 9;

// A length in ns, or one with more digits on a side than that. The second is no failure: the tag reads, and refusal 6 tells of it.
#[derive(Clone, Copy)]
pub enum Length {
    Ns(u64),
    TooManyDigits,
}

// The digits on one side of the point: how many, and what they write. A value that no u64 holds is kept as 0: its digits are too many.
#[derive(Clone, Copy)]
struct Digits {
    value: u64,
    count: usize,
}

// Digits that stand at a place, at least one.
fn counted(text: &[u8], at: usize) -> IResult<Digits>
    ensures { digits_res result ≡ map kept rule.counted text.now at }
{
    match util::number(text, at) {
        Parsed::Value(value, end) => {
            let count = end - at;
            Ok((Digits { value, count }, end))
        }
        Parsed::TooLarge(end) => {
            let count = end - at;
            Ok((Digits { value: 0, count }, end))
        }
        Parsed::NoDigits => Err(Why::NoDigits),
    }
}

// A point, and the digits after it.
fn fraction(text: &[u8], at: usize) -> IResult<Digits>
    ensures { digits_res result ≡ map kept (preceded (tag (bytes ".")) rule.counted) text.now at }
{
    if scan::starts_with(text, at, b".") {
        counted(text, at + 1)
    } else {
        Err(Why::OtherText)
    }
}

// The powers of ten that pad a fraction to nine digits.
fn ten_to(k: usize) -> u64
    requires { k ≤ 9 }
    ensures { result ≡ 10 ^ k }
{
    match k {
        0 => 1,
        1 => 10,
        2 => 100,
        3 => 1_000,
        4 => 10_000,
        5 => 100_000,
        6 => 1_000_000,
        7 => 10_000_000,
        8 => 100_000_000,
        _ => SECOND,
    }
}

// What both sides make. A fraction of m digits counts units of 10^(9 - m) ns; one of no digits is nothing.
fn length_of(left: Digits, right: Digits) -> Length
    requires { (left.value < 10 ^ left.count) × (right.value < 10 ^ right.count) }
    ensures { length_seen result ≡ rule.length_of (digits_of left) (some (digits_of right)) }
{
    if SIDE_DIGITS < left.count {
        return Length::TooManyDigits;
    }
    if SIDE_DIGITS < right.count {
        return Length::TooManyDigits;
    }
    Length::Ns(left.value * SECOND + right.value * ten_to(SIDE_DIGITS - right.count))
}

// Digits, perhaps a point with digits. A point without digits is left standing.
pub fn float(text: &[u8], at: usize) -> IResult<Length>
    ensures { length_res result ≡ rule.float text.now at }
{
    let (left, point) = counted(text, at)?;
    match fraction(text, point) {
        Ok((right, end)) => Ok((length_of(left, right), end)),
        Err(_) => {
            let nothing = Digits { value: 0, count: 0 };
            Ok((length_of(left, nothing), point))
        }
    }
}

// SegmentTag::Extinf(f32, Option<String>)
#[derive(Clone, Copy)]
pub struct Extinf {
    pub duration: Length,
    pub title: Option<Span>,
}

// The byte after the title is taken, whatever it is, and then a comma, which may begin the next line.
pub fn duration_title_tag(text: &[u8], at: usize) -> IResult<Extinf>
    ensures { extinf_res result ≡ rule.duration_title_tag text.now at }
{
    let (duration, end) = float(text, at)?;
    let title = scan::after_tag(text, end, b",");
    let title_end = blocks::words_until(text, title, b"\r\n,");
    if text.len() <= title_end {
        return Err(Why::MissingByte);
    }
    let title = scan::part(title, title_end);
    let after = scan::after_tag(text, title_end + 1, b",");
    Ok((Extinf { duration, title }, after))
}

// Past a point with digits. A point without digits is left standing.
fn fraction_end(text: &[u8], at: usize) -> usize
    ensures { result ≡ after at (opt (preceded (tag (bytes ".")) rule.counted) text.now at) }
{
    if scan::starts_with(text, at, b".") {
        let end = scan::digits_end(text, at + 1);
        if at + 1 < end {
            return end;
        }
    }
    at
}

// What `duration_title_tag` takes, without the values: whether the length has too many digits, and the place after it. A pass that only counts needs no more.
pub fn extinf_end(text: &[u8], at: usize) -> Option<(bool, usize)>
    ensures { extinf_end result ≡ end_of (rule.duration_title_tag text.now at) }
{
    let point = scan::digits_end(text, at);
    if point <= at {
        return None;
    }
    let end = fraction_end(text, point);
    let too_many = (SIDE_DIGITS < point - at) | (SIDE_DIGITS + 1 < end - point);
    let title = scan::after_tag(text, end, b",");
    let title_end = blocks::words_until(text, title, b"\r\n,");
    if text.len() <= title_end {
        return None;
    }
    Some((too_many, scan::after_tag(text, title_end + 1, b",")))
}
