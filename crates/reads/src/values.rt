// Each kind of value that a register shows, as its bytes: a line each over `hold`, since a trait of
// what has bytes would need a law for each.
ghost use Rattle.std.specs.Prelude.{◌≡◌, [], ◌∷◌, pos};
ghost use Rattle.integers.specs.Bytes.{bytes_of, signed_bytes};
ghost use Rattle.numbers.specs.Reals.{real_bytes, real_of};
ghost use Rattle.counts.specs.Counts.{operating_units};
ghost use Rattle.model.specs.Errors.{bit_value};
ghost use Rattle.model.specs.Reads.{timer_bytes};
ghost use Rattle.reads.specs.Held.{held};

use crate::buffer::{RegisterBytes, hold};
use counts::{OperatingCount, TimerCount};
use errors::bits;
use integers::bytes;
use numbers::{reals, times};

pub(crate) fn truth(b: bool) -> RegisterBytes
    ensures { result ≡ held (bit_value b ∷ []) }
{
    hold([bits::bit(b)])
}

pub(crate) fn signed(z: i32) -> RegisterBytes
    ensures { result ≡ held (signed_bytes 4 z) }
{
    hold(bytes::bytes_of_i32(z))
}

pub(crate) fn real(x: f32) -> RegisterBytes
    ensures { result ≡ held (real_bytes x) }
{
    hold(reals::bytes_of(x))
}

pub(crate) fn timer(t: TimerCount) -> RegisterBytes
    ensures { result ≡ held (timer_bytes t) }
{
    real(times::timer_real(t))
}

pub(crate) fn operating(t: OperatingCount) -> RegisterBytes
    ensures { result ≡ held (real_bytes (real_of operating_units (pos t.0))) }
{
    real(times::operating_real(t))
}

pub(crate) fn word(w: u16) -> RegisterBytes
    ensures { result ≡ held (bytes_of 2 w) }
{
    hold(bytes::bytes_of_u16(w))
}
