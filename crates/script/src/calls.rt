// The words of one call, by its name.
ghost use Rattle.std.specs.Prelude.{◌≡◌, ◌≤◌, length};

use crate::charges::Charge;
use crate::digits::Base;
use crate::parameters::Wrong;
use crate::windows::Windows;
use crate::words::Words;
use crate::{digits, parameters};

// What `store` lends, and how much of it at most.
const LENT: u8 = 0xA5;

const LONGEST_STORE: u64 = 4096;

// What a line asks for. A line without a call is one of the answers, so there is no Option around
// this. The bytes of an image, a write or a lent buffer stand beside it.
#[derive(Clone, Copy)]
pub enum Line {
    Empty,
    Power,
    Store,
    Read(u16),
    Write(u16),
    Sample(u8, bool, u32),
    LookUp(u8, u32),
    Tick(u32),
    Charge(Charge),
    Minute(u16),
    Windows(u8, Windows),
    Outputs,
}

// The bytes that a call takes: none, those that a word's digits write, or as many as `store` lends. No
// Option around the two others: `put_bytes` matches all three at once.
#[derive(Clone, Copy)]
enum Bytes<'a> {
    None,
    Digits(&'a [u8]),
    Lent(usize),
}

// A line, and the bytes of its call, which no space holds yet.
#[derive(Clone, Copy)]
pub(crate) struct Asked<'a> {
    pub(crate) line: Line,
    bytes: Bytes<'a>,
}

// Fills the start of the space with what `store` lends, as far as there is room; answers how far.
fn lend(n: usize, space: &mut [u8]) -> usize
    ensures { result ≤ length space.new }
{
    let lent = n.min(space.len());
    space[..lent].fill(LENT);
    lent
}

impl Asked<'_> {
    // Puts the bytes at the start of the space, as far as there is room; answers how many.
    pub(crate) fn put_bytes(self, space: &mut [u8]) -> usize
        ensures room { result ≤ length space.new }
        ensures none { self.entry.bytes ≡ Bytes.None → result ≤ 0 }
    {
        match self.bytes {
            Bytes::None => 0,
            Bytes::Digits(word) => digits::parse_bytes(word, space),
            Bytes::Lent(n) => lend(n, space),
        }
    }
}

// A line whose call takes no bytes.
pub(crate) fn without_bytes<'a>(line: Line) -> Asked<'a>
    ensures { result.bytes ≡ Bytes.None }
{
    Asked {
        line,
        bytes: Bytes::None,
    }
}

// A line with the byte string that a word writes, of which '-' is the empty one.
fn with_bytes(line: Line, word: &[u8]) -> Result<Asked, Wrong> {
    if word == b"-".as_slice() {
        return Ok(without_bytes(line));
    }
    if !digits::only_digits(word, Base::Hexadecimal) {
        return Err(Wrong::NotHexadecimal);
    }
    if word.len() % 2 == 1 {
        return Err(Wrong::OddDigits);
    }
    Ok(Asked {
        line,
        bytes: Bytes::Digits(word),
    })
}

pub(crate) fn parse_power(mut words: Words) -> Result<Asked, Wrong> {
    words.exactly(1)?;
    with_bytes(Line::Power, words.word()?)
}

pub(crate) fn parse_store(mut words: Words) -> Result<Asked, Wrong> {
    words.exactly(1)?;
    let length = parameters::decimal(words.word()?, LONGEST_STORE)?;
    Ok(Asked {
        line: Line::Store,
        bytes: Bytes::Lent(length as usize),
    })
}

// SWNO BYTES
fn parse_wire(mut words: Words) -> Result<(u16, &[u8]), Wrong> {
    words.exactly(2)?;
    let swno = parameters::swno(words.word()?)?;
    Ok((swno, words.word()?))
}

pub(crate) fn parse_read(words: Words) -> Result<Asked, Wrong> {
    let (swno, lent) = parse_wire(words)?;
    with_bytes(Line::Read(swno), lent)
}

pub(crate) fn parse_write(words: Words) -> Result<Asked, Wrong> {
    let (swno, bytes) = parse_wire(words)?;
    with_bytes(Line::Write(swno), bytes)
}

pub(crate) fn parse_sample(mut words: Words) -> Result<Line, Wrong> {
    words.exactly(3)?;
    let channel = parameters::whole(words.word()?)?;
    let level = parameters::bit(words.word()?)?;
    let real = parameters::bits(words.word()?)?;
    Ok(Line::Sample(channel, level, real))
}

pub(crate) fn parse_look_up(mut words: Words) -> Result<Line, Wrong> {
    words.exactly(2)?;
    let table = parameters::whole(words.word()?)?;
    let real = parameters::bits(words.word()?)?;
    Ok(Line::LookUp(table, real))
}

pub(crate) fn parse_tick(mut words: Words) -> Result<Line, Wrong> {
    if words.count_to(0) == 0 {
        return Ok(Line::Tick(1));
    }
    words.exactly(1)?;
    Ok(Line::Tick(parameters::whole(words.word()?)?))
}

pub(crate) fn parse_outputs(words: Words) -> Result<Line, Wrong> {
    words.exactly(0)?;
    Ok(Line::Outputs)
}
