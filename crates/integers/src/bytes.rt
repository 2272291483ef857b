// Numbers to and from bytes, the high byte first: std's methods, whose results stand here in the
// words of document 01 (specs/Bytes). Three pairs and no generic one: each is a line of std's, and a
// trait would need a member and a law for the width, and an impl for each of these.
ghost use Rattle.std.specs.Prelude.{◌≡◌};
ghost use Rattle.integers.specs.Bytes.{number, bytes_of, signed_number, signed_bytes};

use crate::signed;

pub fn u16_of_bytes(b: [u8; 2]) -> u16
    ensures { result ≡ number b }
{
    u16::from_be_bytes(b)
}

pub fn bytes_of_u16(n: u16) -> [u8; 2]
    ensures { result ≡ bytes_of 2 n }
{
    n.to_be_bytes()
}

pub fn u32_of_bytes(b: [u8; 4]) -> u32
    ensures { result ≡ number b }
{
    u32::from_be_bytes(b)
}

pub fn bytes_of_u32(n: u32) -> [u8; 4]
    ensures { result ≡ bytes_of 4 n }
{
    n.to_be_bytes()
}

pub fn i32_of_bytes(b: [u8; 4]) -> i32
    ensures { result ≡ signed_number b }
{
    signed::i32_of_bits(u32_of_bytes(b))
}

pub fn bytes_of_i32(z: i32) -> [u8; 4]
    ensures { result ≡ signed_bytes 4 z }
{
    bytes_of_u32(signed::bits_of_i32(z))
}
