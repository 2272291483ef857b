// The reply to a line.
ghost use Rattle.std.specs.Prelude.{◌<◌, IfSome};

use crate::convert::{NoAnswer, Word, convert};
use std::io;

// Letters are small alone: `to_digit` would take capitals too.
fn digit(b: u8) -> Option<u32>
    ensures { IfSome result (λ d. d < 16) }
{
    match b {
        b'0'..=b'9' => Some(u32::from(b - b'0')),
        b'a'..=b'f' => Some(u32::from(b - b'a' + 10)),
        _ => None,
    }
}

// The word of a line `KK WWWWWWWW`, or none where the line is malformed.
fn word_of(line: &[u8; 12]) -> Option<Word> {
    if line[2] != b' ' || line[11] != b'\n' {
        return None;
    }
    let mut word: u32 = 0;
    for b in &line[3..11] {
        word = (word << 4) | digit(*b)?;
    }
    Some(Word(word.to_be_bytes()))
}

// The eight characters of an answer: its number, whatever the bytes stand for, or the mark of why
// there is none.
fn answer(out: &impl Print, answer: Result<[u8; 4], NoAnswer>) -> io::Result<()> {
    match answer {
        Ok(bytes) => {
            let n = u32::from_be_bytes(bytes);
            println!(out; "{n:08x}")
        }
        Err(NoAnswer::OutOfRange) => println!(out; "--------"),
        Err(NoAnswer::UnknownKind) => println!(out; "????????"),
    }
}

// The answer stands in the line, after a space in place of the line's end.
pub fn reply(out: &impl Print, line: [u8; 12]) -> io::Result<()> {
    let Some(word) = word_of(&line) else {
        return out.write_all(b"malformed line\n");
    };
    let mut text = line;
    text[11] = b' ';
    out.write_all(&text)?;
    answer(out, convert([line[0], line[1]], word))
}
