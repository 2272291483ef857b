// Numbers and byte strings as digits.
ghost use Rattle.std.specs.Prelude.{◌≡◌, ◌+◌, ◌<◌, ◌≤◌, length, take, IfSome};
ghost use Rattle.script.specs.Digits.{last_digits, IsDigitCount};

// The bases that numbers are read in.
#[derive(Clone, Copy)]
pub(crate) enum Base {
    Decimal,
    Hexadecimal,
}

impl Base {
    fn radix(self) -> u32
        ensures { (2 ≤ result) × (result ≤ 36) }
    {
        match self {
            Base::Decimal => 10,
            Base::Hexadecimal => 16,
        }
    }
}

// Whether a word has a digit and nothing but digits of the base.
pub(crate) fn only_digits(word: &[u8], base: Base) -> bool {
    let radix = base.radix();
    !word.is_empty() && word.iter().all(|b| char::from(*b).is_digit(radix))
}

// The number that a word of digits writes, where it is at most the highest allowed.
pub(crate) fn parse_number(word: &[u8], base: Base, highest: u64) -> Option<u64>
    ensures { IfSome result (λ n. n ≤ highest) }
{
    let text = str::from_utf8(word).ok()?;
    let n = u64::from_str_radix(text, base.radix()).ok()?;
    if highest < n {
        return None;
    }
    Some(n)
}

// The value of a hexadecimal digit, and 0 of any other byte.
fn value(b: u8) -> u8
    ensures { result < 16 }
{
    char::from(b).to_digit(16).unwrap_or(0) as u8
}

// The bytes that pairs of digits write, at the start of out, as many as there is room for; answers
// how many.
pub(crate) fn parse_bytes(word: &[u8], out: &mut [u8]) -> usize
    ensures { result ≤ length out.new }
{
    let (pairs, _) = word.as_chunks::<2>();
    for (pair, byte) in pairs.iter().zip(out.iter_mut()) {
        let [high, low] = *pair;
        *byte = value(high) * 16 + value(low);
    }
    pairs.len().min(out.len())
}

// How many decimal digits a number takes.
fn digit_count(n: u64) -> usize
    ensures value { IsDigitCount n result }
    ensures most { result ≤ 20 }
{
    match n.checked_ilog10() {
        Some(k) => k as usize + 1,
        None => 1,
    }
}

// The character of a decimal digit.
fn character(digit: u64) -> u8
    requires { digit < 10 }
    ensures { result ≡ 48 + digit }
{
    b'0' + digit as u8
}

// Puts the last k decimal digits of a number at the start of out. By index: a proof knows no
// element after `iter_mut().rev()`.
fn write_digits(n: u64, k: usize, out: &mut [u8])
    requires { k ≤ length out.old }
    ensures { take k out.new ≡ last_digits k n }
{
    let mut rest = n;
    for i in (0..k).rev() {
        out[i] = character(rest % 10);
        rest /= 10;
    }
}

// Puts a number's decimal digits at the start of out, and answers how many there are. It is written
// here, and not left to `{}`, for its clause `digits`: that is a definition of specs/Digits.antt.
pub(crate) fn decimal(n: u64, out: &mut [u8; 20]) -> usize
    ensures in_bounds { result ≤ length out.new }
    ensures len { IsDigitCount n result }
    ensures digits { take result out.new ≡ last_digits result n }
{
    let k = digit_count(n);
    write_digits(n, k, out);
    k
}
