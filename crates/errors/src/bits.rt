// Bits to numbers.
ghost use Rattle.std.specs.Prelude.{◌≡◌, ◌+◌, ◌*◌, ◌<◌};
ghost use Rattle.model.specs.Errors.{bit_value, byte_of};

pub fn bit(b: bool) -> u8
    ensures { result ≡ bit_value b }
{
    u8::from(b)
}

// The first bit is the highest.
pub fn byte_of(bits: [bool; 8]) -> u8
    ensures { result ≡ byte_of bits }
{
    let mut n: u8 = 0;
    for b in bits {
        n = n * 2 + bit(b);
    }
    n
}

// One bit more, at the low end of a word.
pub(crate) fn more(word: u16, b: bool) -> u16
    requires { word < 32768 }
    ensures { result ≡ word * 2 + bit_value b }
{
    word * 2 + u16::from(b)
}
