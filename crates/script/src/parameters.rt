// The numbers among the words of a line.
ghost use Rattle.std.specs.Prelude.{◌≤◌, IfOk};

use crate::digits;
use crate::digits::Base;
use std::error::Error;
use std::fmt;

// Why a line is no call.
#[derive(Clone, Copy, Debug)]
pub enum Wrong {
    LineTooLong,
    UnknownCall,
    WordCount,
    NotHexadecimal,
    OddDigits,
    NotDecimal,
    TooLarge,
    NotBit,
}

impl fmt::Display for Wrong {
    fn fmt<W: fmt::Write>(&self, f: &mut fmt::Formatter<W>) -> fmt::Result {
        match self {
            Wrong::LineTooLong => write!(f, "line too long"),
            Wrong::UnknownCall => write!(f, "unknown call"),
            Wrong::WordCount => write!(f, "wrong number of words"),
            Wrong::NotHexadecimal => write!(f, "not a hexadecimal string"),
            Wrong::OddDigits => write!(f, "odd number of hexadecimal digits"),
            Wrong::NotDecimal => write!(f, "not a decimal number"),
            Wrong::TooLarge => write!(f, "number too large"),
            Wrong::NotBit => write!(f, "not 0 or 1"),
        }
    }
}

impl Error for Wrong {}

// The number that a word writes in digits of the base; `otherwise` where it has others. The clause
// stands in `parse_number` and in the two functions below too: it speaks of their argument, so that
// no type holds it.
fn number(word: &[u8], base: Base, highest: u64, otherwise: Wrong) -> Result<u64, Wrong>
    ensures { IfOk result (λ n. n ≤ highest) }
{
    if !digits::only_digits(word, base) {
        return Err(otherwise);
    }
    digits::parse_number(word, base, highest).ok_or(Wrong::TooLarge)
}

pub fn decimal(word: &[u8], highest: u64) -> Result<u64, Wrong>
    ensures { IfOk result (λ n. n ≤ highest) }
{
    number(word, Base::Decimal, highest, Wrong::NotDecimal)
}

pub fn hexadecimal(word: &[u8], highest: u64) -> Result<u64, Wrong>
    ensures { IfOk result (λ n. n ≤ highest) }
{
    number(word, Base::Hexadecimal, highest, Wrong::NotHexadecimal)
}

// A decimal number that its type holds.
pub(crate) fn whole<N: TryFrom<u64>>(word: &[u8]) -> Result<N, Wrong>
where
    N::Error: Drop,
{
    N::try_from(decimal(word, u64::MAX)?)
        .ok()
        .ok_or(Wrong::TooLarge)
}

// A SWNo, which may have '$', "0x" or "0X" before its digits.
pub fn swno(word: &[u8]) -> Result<u16, Wrong> {
    let digits = match word {
        [b'$', digits @ ..] | [b'0', b'x' | b'X', digits @ ..] => digits,
        _ => word,
    };
    Ok(hexadecimal(digits, 0xFFFF)? as u16)
}

// The eight digits of 32 bits: of a Real, or of a Counter as it is read.
pub fn bits(word: &[u8]) -> Result<u32, Wrong> {
    if word.len() != 8 {
        return Err(Wrong::NotHexadecimal);
    }
    Ok(hexadecimal(word, 0xFFFF_FFFF)? as u32)
}

pub(crate) fn bit(word: &[u8]) -> Result<bool, Wrong> {
    match word {
        b"0" => Ok(false),
        b"1" => Ok(true),
        _ => Err(Wrong::NotBit),
    }
}
