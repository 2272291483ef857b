// The words of the two calls of opening hours: minute N, and windows CH [START END]..
ghost use Rattle.std.specs.Prelude.{◌≤◌};

use crate::calls::Line;
use crate::parameters;
use crate::parameters::Wrong;
use crate::words::Words;

// The windows of a channel: how many there are, and each as the box takes it, its start in the high
// half of the number and its end in the low half. A line has no more than sixteen, so that they
// need no heap.
#[derive(Clone, Copy)]
pub struct Windows {
    pub count: usize,
    pub numbers: [u32; 16],
    ghost within: { count ≤ 16 },
}

// CH, and up to sixteen pairs.
const MOST_WORDS: usize = 33;

// Any number of 16 bits is read: which of them are minutes of a week is the box's own question.
fn take_minute(words: &mut Words) -> Result<u16, Wrong> {
    parameters::whole(words.word()?)
}

pub(crate) fn parse_minute(mut words: Words) -> Result<Line, Wrong> {
    words.exactly(1)?;
    Ok(Line::Minute(take_minute(&mut words)?))
}

// The two words of a window, as one number.
fn take_window(words: &mut Words) -> Result<u32, Wrong> {
    let start = u32::from(take_minute(words)?);
    let end = u32::from(take_minute(words)?);
    Ok(start << 16 | end)
}

// The channel alone, or two words more for each window.
pub(crate) fn parse_windows(mut words: Words) -> Result<Line, Wrong> {
    let all = words.count_to(MOST_WORDS);
    if MOST_WORDS < all || all % 2 == 0 {
        return Err(Wrong::WordCount);
    }
    let channel = parameters::whole(words.word()?)?;
    let count = all / 2;
    let mut numbers = [0; 16];
    for number in &mut numbers[..count] {
        *number = take_window(&mut words)?;
    }
    Ok(Line::Windows(channel, Windows { count, numbers }))
}
