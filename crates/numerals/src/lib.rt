// Numbers and lengths as text at a place of a lent output: as many of their bytes as it still has room for. The room is tested once, for the longest of them;
// near the output's end the text is made aside, and then as much of it is copied as has room.
#![tactic(auto)]

ghost use Rattle.std.specs.Prelude.{◌+◌, ◌<◌};
ghost use Rattle.tables.specs.Layout.{second};
ghost use Rattle.digits.specs.Digits.{number_text, fraction_text, length_text};
ghost use Rattle.put.specs.Put.{Puts};
ghost use Rattle.put.specs.Inside.Room.{Room};
ghost use Rattle.numerals.specs.Inside.Front.{front_by};

use tables::layout::SECOND;

// The byte `0`.
const DIGIT_ZERO: u64 = 48;

// How many numbers three digits can write.
const THREE_DIGITS: u64 = 1000;

// The bytes of the longest number and of the longest length.
const NUMBER_MOST: usize = 20;

const LENGTH_MOST: usize = 21;

// ---- where there is room

// A number: first its quotient by ten, which falls, then its last digit.
fn digits_at(out: &mut [u8], at: usize, n: u64) -> usize
    requires { Room out.old at (number_text n) }
    ensures { Puts out.old at (number_text n) out.new result }
{
    if n < 10 {
        out[at] = (DIGIT_ZERO + n) as u8;
        return at + 1;
    }
    let last = digits_at(out, at, n / 10);
    out[last] = (DIGIT_ZERO + n % 10) as u8;
    last + 1
}

// The next three digits of a fraction, or fewer: no zero is written with nothing behind it.
fn three_at(out: &mut [u8], at: usize, three: u64, behind: u64) -> usize
    requires three_bound { three < 1000 }
    requires behind_lt_second { behind < second }
    requires behind_nonzero { 0 < three + behind }
    requires room { Room out.old at (front_by 3 three behind) }
    ensures { Puts out.old at (front_by 3 three behind) out.new result }
{
    out[at] = (DIGIT_ZERO + three / 100) as u8;
    let two = three % 100;
    if two + behind == 0 {
        return at + 1;
    }
    out[at + 1] = (DIGIT_ZERO + two / 10) as u8;
    let one = two % 10;
    if one + behind == 0 {
        return at + 2;
    }
    out[at + 2] = (DIGIT_ZERO + one) as u8;
    at + 3
}

// A fraction of a second in ns: nothing, or a point and its digits from the highest on, three at a turn, as long as something is left. What is left is held in
// billionths, so that each three are a quotient by the same number.
fn fraction_at(out: &mut [u8], at: usize, f: u64) -> usize
    requires f_lt_second { f < second }
    requires room { Room out.old at (fraction_text f) }
    ensures { Puts out.old at (fraction_text f) out.new result }
{
    if f == 0 {
        return at;
    }
    out[at] = b'.';
    let mut to = at + 1;
    let mut left = f;
    while left != 0 {
        let thousandfold = THREE_DIGITS * left;
        left = thousandfold % SECOND;
        to = three_at(out, to, thousandfold / SECOND, left);
    }
    to
}

// Whole seconds. Those of a clip have one digit mostly, which is put without a call.
fn seconds_at(out: &mut [u8], at: usize, n: u64) -> usize
    requires { Room out.old at (number_text n) }
    ensures { Puts out.old at (number_text n) out.new result }
{
    if n < 10 {
        out[at] = (DIGIT_ZERO + n) as u8;
        return at + 1;
    }
    digits_at(out, at, n)
}

// A length in ns, as seconds.
fn length_at(out: &mut [u8], at: usize, ns: u64) -> usize
    requires { Room out.old at (length_text ns) }
    ensures { Puts out.old at (length_text ns) out.new result }
{
    let point = seconds_at(out, at, ns / SECOND);
    fraction_at(out, point, ns % SECOND)
}

// ---- near the output's end

fn number_aside(out: &mut [u8], at: usize, n: u64) -> usize
    ensures { Puts out.old at (number_text n) out.new result }
{
    let mut aside = [0; NUMBER_MOST];
    let end = digits_at(&mut aside, 0, n);
    put::copy(out, at, &aside[..end])
}

fn length_aside(out: &mut [u8], at: usize, ns: u64) -> usize
    ensures { Puts out.old at (length_text ns) out.new result }
{
    let mut aside = [0; LENGTH_MOST];
    let end = length_at(&mut aside, 0, ns);
    put::copy(out, at, &aside[..end])
}

// ---- anywhere

pub fn number(out: &mut [u8], at: usize, n: u64) -> usize
    ensures { Puts out.old at (number_text n) out.new result }
{
    if out.len() < at {
        return at;
    }
    if out.len() - at < NUMBER_MOST {
        return number_aside(out, at, n);
    }
    digits_at(out, at, n)
}

pub fn length(out: &mut [u8], at: usize, ns: u64) -> usize
    ensures { Puts out.old at (length_text ns) out.new result }
{
    if out.len() < at {
        return at;
    }
    if out.len() - at < LENGTH_MOST {
        return length_aside(out, at, ns);
    }
    length_at(out, at, ns)
}
