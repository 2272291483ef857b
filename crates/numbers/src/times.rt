// Reals to counts and back, once for both units.
ghost use Rattle.std.specs.Prelude.{◌≡◌, true, ◌^◌, ◌≤◌, ◌<◌, T, pos};
ghost use Rattle.std.specs.Float.{binary32};
ghost use Rattle.std.specs.Float.Ieee.{round};
ghost use Rattle.std.specs.Float.Ieee.Nearest.{closest};
ghost use Rattle.counts.specs.Counts.{timer, timer_units, operating_units};
ghost use Rattle.numbers.specs.Reals.{units_of, count_of, real_of, under};
ghost use Rattle.numbers.specs.Written.{timer_allowed, operating_allowed};

use counts::{OperatingCount, TimerCount};
use std::cmp::Ordering;

// A second is 2^bits counts.
#[derive(Clone, Copy)]
struct Unit {
    bits: u32,
    ghost small: { bits ≤ 8 },
}

const TIMER: Unit = Unit { bits: 8 };

const OPERATING: Unit = Unit { bits: 3 };

// A Real's bits from the top: its sign, the exponent's field, and 23 digits below the leading one,
// whose weight is also that of the field's lowest bit.
const SIGN: u32 = 0x8000_0000;

const LEADING: u32 = 0x80_0000;

// n / d to the nearest whole number, a tie to the even one.
fn nearest_quotient(n: u64, d: u64) -> u64
    requires { (n < 2 ^ 63) × (0 < d) × (d < 2 ^ 63) }
    ensures { result ≡ closest n d }
{
    let q = n / d;
    let twice = n % d * 2;
    match twice.cmp(&d) {
        Ordering::Less => q,
        Ordering::Equal => q + q % 2,
        Ordering::Greater => q + 1,
    }
}

// The Real nearest to n counts, a tie to the even last bit. The leading zeros of n give the exponent:
// its field is 127 + 31 - unit - zeros, of which the leading digit brings the last 1. Where the 24
// digits round up to 2^24, the sum carries into the field.
fn real_of(negative: bool, n: u32, unit: Unit) -> f32
    ensures { result ≡ round binary32 negative n (2 ^ unit.bits) }
{
    let sign = u32::from(negative) * SIGN;
    if n == 0 {
        return f32::from_bits(sign);
    }
    let zeros = n.leading_zeros();
    let digits = nearest_quotient((n as u64) << zeros, 256) as u32;
    f32::from_bits(sign + (157 - unit.bits - zeros) * LEADING + digits)
}

// Two of each, since the counts are two types (document 01, Forms 6); the work is done once.
pub fn timer_real(t: TimerCount) -> f32
    ensures { result ≡ real_of timer_units t.0 }
{
    let n = t.0;
    real_of(n < 0, n.unsigned_abs(), TIMER)
}

pub fn operating_real(t: OperatingCount) -> f32
    ensures { result ≡ real_of operating_units (pos t.0) }
{
    real_of(false, t.0, OPERATING)
}

// The magnitude of x in counts. Where the exponent's field is below 100, x is below 2^-27 s, which is
// less than half a count of either unit.
fn units_of(x: f32, unit: Unit) -> u64
    requires { T (under (2 ^ unit.bits) (2 ^ 32) x) }
    ensures { result ≡ units_of (2 ^ unit.bits) x }
{
    let bits = f32::to_bits(x) % SIGN;
    let exponent = bits / LEADING;
    if exponent < 100 {
        return 0;
    }
    let divisor = 1u64 << (158 - unit.bits - exponent);
    let digits = LEADING + bits % LEADING;
    nearest_quotient((digits as u64) * 256, divisor)
}

// The count of x, with its sign.
fn count_of(x: f32, unit: Unit) -> i64
    requires { T (under (2 ^ unit.bits) (2 ^ 32) x) }
    ensures { result ≡ count_of (2 ^ unit.bits) x }
{
    let n = units_of(x, unit) as i64;
    if x < 0.0 {
        return 0 - n;
    }
    n
}

// What a timer or a preset allows is asked before.
pub fn timer_count(x: f32) -> TimerCount
    requires { timer_allowed x ≡ true }
    ensures { result ≡ timer (count_of timer_units x) }
{
    TimerCount(count_of(x, TIMER) as i32)
}

// What OperatingTime allows is asked before. Its count has no sign.
pub fn operating_count(x: f32) -> OperatingCount
    requires { operating_allowed x ≡ true }
    ensures { result ≡ record { 0 = units_of operating_units x } }
{
    OperatingCount(count_of(x, OPERATING) as u32)
}
