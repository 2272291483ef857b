// Reals of 32 bits and their bit patterns. There is one NaN.
ghost use Rattle.std.specs.Prelude.{◌≡◌};
ghost use Rattle.std.specs.Float.{binary32};
ghost use Rattle.std.specs.Float.Ieee.{to_bits, of_bits};
ghost use Rattle.std.specs.Float.Ieee.Scale.{finite};
ghost use Rattle.numbers.specs.Reals.{real_from, real_bytes};

use integers::bytes;

// Every pattern whose magnitude is above the infinity's is the one NaN.
pub fn of_bits(bits: u32) -> f32
    ensures { result ≡ of_bits binary32 bits }
{
    if bits % 0x8000_0000 > 0x7F80_0000 {
        return f32::NAN;
    }
    f32::from_bits(bits)
}

// A NaN gives 0x7FC0_0000.
pub fn bits_of(x: f32) -> u32
    ensures { result ≡ to_bits binary32 x }
{
    if x.is_nan() {
        return 0x7FC0_0000;
    }
    x.to_bits()
}

// Neither a NaN nor an infinity.
pub fn is_finite(x: f32) -> bool
    ensures { result ≡ finite x }
{
    x.is_finite()
}

pub fn of_bytes(b: [u8; 4]) -> f32
    ensures { result ≡ real_from b }
{
    of_bits(bytes::u32_of_bytes(b))
}

pub fn bytes_of(x: f32) -> [u8; 4]
    ensures { result ≡ real_bytes x }
{
    bytes::bytes_of_u32(bits_of(x))
}
