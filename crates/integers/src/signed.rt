// Signed numbers: their bits in two's complement, and sums that wrap: std's methods, whose results
// stand here in the paper's words (specs/Integers, Numbers of fixed width).
ghost use Rattle.std.specs.Prelude.{◌≡◌, ◌^◌, ◌+ℤ◌, ◌-ℤ◌};
ghost use Rattle.integers.specs.Integers.{modulo, signed_bits, wrapped};

pub fn bits_of_i32(z: i32) -> u32
    ensures { result ≡ modulo z (2 ^ 32) }
{
    z.cast_unsigned()
}

pub fn i32_of_bits(n: u32) -> i32
    ensures { result ≡ signed_bits 32 n }
{
    n.cast_signed()
}

pub fn wrapping_add_i32(a: i32, b: i32) -> i32
    ensures { result ≡ wrapped 32 (a +ℤ b) }
{
    a.wrapping_add(b)
}

pub fn wrapping_sub_i32(a: i32, b: i32) -> i32
    ensures { result ≡ wrapped 32 (a -ℤ b) }
{
    a.wrapping_sub(b)
}
