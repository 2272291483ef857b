// The values that the bytes of a register or of a setup image hold, and which settings are allowed.
// The length of the bytes is asked before. Each contract says it, and none takes an array: a caller
// holds a register's bytes as a slice that is as long as its row says, and std makes an array of a
// slice only with a case for every other length, which would be a refusal that no document has.
// README and docs/RULES.md name these functions, so that no parameter may be narrower either.
// Each number has a line over `array_from`: a trait of what has bytes would need a law for each.
#![tactic(auto)]

ghost use Rattle.std.specs.Prelude.{◌≡◌, length};
ghost use Rattle.integers.specs.Bytes.{number, signed_number};
ghost use Rattle.numbers.specs.Reals.{real_from};
ghost use Rattle.model.specs.Lookup.{pair_of};
ghost use Rattle.model.specs.Reads.{config_bytes};
ghost use Rattle.model.specs.Image.{part, config_from, table_from, function_allowed, config_allowed, module_config_allowed, real_allowed, table_allowed, table_size};

pub mod none; // what a power-up and a reset clear

use integers::bytes;
use model::{Config, LevelTable, Pair};
use numbers::reals;
use std::array;

pub fn word_from(b: &[u8]) -> u16
    requires { length b.now ≡ 2 }
    ensures { result ≡ number b.now }
{
    bytes::u16_of_bytes(array_from(b))
}

pub fn number_from(b: &[u8]) -> u32
    requires { length b.now ≡ 4 }
    ensures { result ≡ number b.now }
{
    bytes::u32_of_bytes(array_from(b))
}

pub fn signed_from(b: &[u8]) -> i32
    requires { length b.now ≡ 4 }
    ensures { result ≡ signed_number b.now }
{
    bytes::i32_of_bytes(array_from(b))
}

pub fn real_from(b: &[u8]) -> f32
    requires { length b.now ≡ 4 }
    ensures { result ≡ real_from b.now }
{
    reals::of_bytes(array_from(b))
}

pub fn array_from<const N: usize>(b: &[u8]) -> [u8; N]
    requires { length b.now ≡ N }
    ensures { result ≡ b.now }
{
    let mut a = [0; N];
    a.copy_from_slice(b);
    a
}

pub fn config_from(b: &[u8]) -> Config
    requires { length b.now ≡ 4 }
    ensures { result ≡ config_from b.now }
{
    Config {
        enablebit: b[0],
        functions: b[1],
        ref_a: b[2],
        ref_b: b[3],
    }
}

pub fn config_bytes(g: Config) -> [u8; 4]
    ensures { result ≡ config_bytes g }
{
    [g.enablebit, g.functions, g.ref_a, g.ref_b]
}

fn function_allowed(n: u8) -> bool
    ensures { result ≡ function_allowed n }
{
    (n == 0) | ((n == 0x10) | ((n == 0x20) | ((n == 0x30) | (n == 0x50))))
}

pub fn config_allowed(bytes: &[u8]) -> bool
    requires { length bytes.now ≡ 4 }
    ensures { result ≡ config_allowed bytes.now }
{
    let a = bytes[2];
    let b = bytes[3];
    function_allowed(bytes[1]) & ((a <= 16) & (b <= 16))
}

// Enablebit and the references of ModuleConfig are not used, and take any byte.
pub fn module_config_allowed(bytes: &[u8]) -> bool
    requires { length bytes.now ≡ 4 }
    ensures { result ≡ module_config_allowed bytes.now }
{
    let n = bytes[1];
    (n == 0) | (n == 0x10)
}

// A Real of the data channel.
pub fn real_allowed(b: &[u8]) -> bool
    requires { length b.now ≡ 4 }
    ensures { result ≡ real_allowed b.now }
{
    reals::is_finite(real_from(b))
}

// Ten pairs of Reals.
pub fn table_allowed(b: &[u8]) -> bool
    requires { length b.now ≡ table_size }
    ensures { result ≡ table_allowed b.now }
{
    let (reals, _) = b.as_chunks::<4>();
    reals.iter().all(|x| real_allowed(x))
}

fn pair_from(b: &[u8; 8]) -> Pair
    ensures { result ≡ pair_of (real_from (part 0 4 b.now)) (real_from (part 4 4 b.now)) }
{
    Pair {
        x: real_from(&b[0..4]),
        y: real_from(&b[4..8]),
    }
}

// A table's pairs: X1 Y1 X2 Y2 and so on.
pub fn table_from(b: &[u8]) -> LevelTable
    requires { length b.now ≡ table_size }
    ensures { result ≡ table_from b.now }
{
    let (pairs, _) = b.as_chunks::<8>();
    LevelTable {
        pairs: array::from_fn(|k| pair_from(&pairs[k])),
    }
}
