// The binary32 nearest to a length, by whole numbers alone.
ghost use Rattle.std.specs.Prelude.{◌≡◌, ◌*◌, ◌/◌, ◌^◌, ◌<◌};
ghost use Rattle.std.specs.Float.Ieee.Nearest.{closest};
ghost use Rattle.lengths.specs.Binary32.{seconds_bits};

use tables::layout::SECOND;

// A binary32 keeps 24 binary digits: the highest one bit, which its bits leave out, and 23 below it.
const DIGITS_BELOW: u32 = 23;

const HIDDEN_BIT: u64 = 8_388_608; // 2^23: the weight of the highest, and of one in the exponent

// The smallest binary32 above 0 is 2^-149.
const SMALLEST: u32 = 149;

// The place of a u64's highest bit.
const TOP_BIT: u32 = 63;

// x * 2^k, which fits.
fn shifted(x: u64, k: u32) -> u64
    requires { (k < 64) × (x * 2 ^ k < 2 ^ 64) }
    ensures { result ≡ x * 2 ^ k }
{
    x << k
}

// n / unit to the nearest whole number, a tie to the even one. `whole` is their quotient: who calls has it without a division.
fn nearest(n: u64, whole: u64, unit: u64) -> u64
    requires { (1 < unit) × (unit < 2 ^ 63) × (whole ≡ n / unit) }
    ensures { result ≡ closest n unit }
{
    let twice = (n - whole * unit) * 2;
    if twice < unit {
        return whole;
    }
    if unit < twice {
        return whole + 1;
    }
    whole + whole % 2
}

// The bits of the binary32 nearest to ns / 10^9 seconds. The length is moved up so that its quotient has at least the 24 digits
// that are kept; the hidden bit, and a carry out of the digits, each add one to the exponent by themselves.
pub fn seconds_bits(ns: u64) -> u64
    ensures { result ≡ seconds_bits ns }
{
    if ns == 0 {
        return 0;
    }
    let up = u64::leading_zeros(ns);
    let n = shifted(ns, up);
    let quotient = n / SECOND;
    let highest = TOP_BIT - u64::leading_zeros(quotient);
    let shift = highest - DIGITS_BELOW;
    let unit = shifted(SECOND, shift);
    let digits = nearest(n, quotient >> shift, unit);
    let exponent = shift + SMALLEST - up;
    (exponent as u64) * HIDDEN_BIT + digits
}
