// What a line of a script asks for.
ghost use Rattle.std.specs.Prelude.{◌≤◌, length, IfOk};

use crate::calls::{Asked, Line};
use crate::parameters::Wrong;
use crate::words::Words;
use crate::{calls, charges, windows};

// The most bytes of a line without its line feed.
pub const LONGEST_LINE: usize = 16384;

// A line, and how many bytes it has put at the start of the lent space: a number, since they stand
// in the caller's space, with no heap. Each function from `parse_bytes` up to play's says that n is
// within the space; no type can, since the space is the caller's argument.
#[derive(Clone, Copy)]
pub struct Parsed {
    pub line: Line,
    pub n: usize,
}

fn parse_call<'a>(name: &[u8], words: Words<'a>) -> Result<Asked<'a>, Wrong> {
    let line = match name {
        b"power" => return calls::parse_power(words),
        b"store" => return calls::parse_store(words),
        b"read" => return calls::parse_read(words),
        b"write" => return calls::parse_write(words),
        b"sample" => calls::parse_sample(words)?,
        b"lookup" => calls::parse_look_up(words)?,
        b"tick" => calls::parse_tick(words)?,
        b"charge" => charges::parse_charge(words)?,
        b"minute" => windows::parse_minute(words)?,
        b"windows" => windows::parse_windows(words)?,
        b"outputs" => calls::parse_outputs(words)?,
        _ => return Err(Wrong::UnknownCall),
    };
    Ok(calls::without_bytes(line))
}

// The call before '#'.
fn parse_text(line: &[u8]) -> Result<Asked, Wrong> {
    let end = line.iter().position(|b| *b == b'#');
    let mut words = Words(&line[..end.unwrap_or(line.len())]);
    match words.next() {
        Some(name) => parse_call(name, words),
        None => Ok(calls::without_bytes(Line::Empty)),
    }
}

// What is wrong is the first of: the line's length, the call's name, the number of words, the words
// from left to right.
pub fn parse(line: &[u8], space: &mut [u8]) -> Result<Parsed, Wrong>
    ensures { IfOk result (λ p. p.n ≤ length space.new) }
{
    if LONGEST_LINE < line.len() {
        return Err(Wrong::LineTooLong);
    }
    let asked = parse_text(line)?;
    let n = asked.put_bytes(space);
    Ok(Parsed {
        line: asked.line,
        n,
    })
}

// A script's first line, which may begin with the UTF-8 mark that some editors put there. The mark
// counts to the line's length.
pub fn parse_first(line: &[u8], space: &mut [u8]) -> Result<Parsed, Wrong>
    ensures { IfOk result (λ p. p.n ≤ length space.new) }
{
    if LONGEST_LINE < line.len() {
        return Err(Wrong::LineTooLong);
    }
    match line {
        [0xEF, 0xBB, 0xBF, text @ ..] => parse(text, space),
        _ => parse(line, space),
    }
}
