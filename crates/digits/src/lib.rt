// How many bytes a number and a length take as text (01, "Writing"). The texts themselves are in `specs/`; who has room for them writes them.
#![tactic(auto)]

ghost use Rattle.std.specs.Prelude.{◌≡◌, ◌^◌, ◌≤◌, ◌<◌, length};
ghost use Rattle.tables.specs.Layout.{second};
ghost use Rattle.digits.specs.Digits.{number_text, fraction_by, fraction_text, length_text};

use tables::layout::SECOND;

// One digit, and one more for each time that ten goes into what is left.
pub fn number_size(n: u64) -> usize
    ensures size { result ≡ length (number_text n) }
    ensures most { result ≤ 20 }
{
    let mut size: usize = 1;
    let mut left = n;
    while 10 <= left {
        left = left / 10;
        size += 1;
    }
    size
}

// The digits of a fraction, as a number, and on how many places they stand.
#[derive(Clone, Copy)]
struct Places {
    left: u64,
    size: usize,
}

// Nine places less zeros at their end, three at a time: most lengths are whole milliseconds, and take two turns here instead of six.
fn without_threes(f: u64) -> Places
    requires { (0 < f) × (f < second) }
    ensures same { fraction_by result.size result.left ≡ fraction_by 9 f }
    ensures places { (0 < result.left) × (result.left < 10 ^ result.size) × (result.size ≤ 9) }
{
    let mut size: usize = 9;
    let mut left = f;
    while left % 1000 == 0 {
        left = left / 1000;
        size -= 3;
    }
    Places { left, size }
}

// A point and nine digits, less the zeros at their end; nothing where all are zeros.
fn fraction_size(f: u64) -> usize
    requires { f < second }
    ensures size { result ≡ length (fraction_text f) }
    ensures most { result ≤ 10 }
{
    if f == 0 {
        return 0;
    }
    let places = without_threes(f);
    let mut size = places.size;
    let mut left = places.left;
    while left % 10 == 0 {
        left = left / 10;
        size -= 1;
    }
    size + 1
}

pub fn length_size(ns: u64) -> usize
    ensures size { result ≡ length (length_text ns) }
    ensures most { result ≤ 21 }
{
    let whole = number_size(ns / SECOND);
    let behind = fraction_size(ns % SECOND);
    whole + behind
}
