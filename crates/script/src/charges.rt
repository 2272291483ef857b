// The words of a charge: EARLIER LATER LITRES [LIMIT PRICE].. PRICE.
use crate::calls::Line;
use crate::parameters;
use crate::parameters::Wrong;
use crate::words::Words;

// The blocks of a charge: how many there are, and the limits and prices of the first. The arrays
// are as long as those of charge's Tariff, which has no heap either. This is not that type, since
// script knows no crate of the box.
#[derive(Clone, Copy)]
pub struct Blocks {
    pub count: u32,
    pub limits: [u64; 3],
    pub prices: [u32; 4],
}

// The bits of two counters, the litres and the blocks.
#[derive(Clone, Copy)]
pub struct Charge {
    pub earlier: u32,
    pub later: u32,
    pub litres: u32,
    pub blocks: Blocks,
}

// EARLIER, LATER and LITRES, and up to eight blocks, of which the last has one word.
const MOST_WORDS: usize = 18;

// How many blocks a charge of so many words has, up to eight: the three words before the blocks,
// and two for each block but the last, which has one.
fn block_count(words: usize) -> Option<u32> {
    match words {
        3 => Some(0),
        4 | 6 | 8 | 10 | 12 | 14 | 16 | 18 => Some(((words - 2) / 2) as u32),
        _ => None,
    }
}

// Puts a number into its place; what stands past the room of the blocks is read and left out.
fn put<T: Copy>(numbers: &mut [T], j: usize, number: T) {
    if let Some(place) = numbers.get_mut(j) {
        *place = number;
    }
}

// The words of so many blocks. Before each price but the last stands a limit. By index: a block
// past the room is read and left out.
fn take_blocks(count: u32, words: &mut Words) -> Result<Blocks, Wrong> {
    let all = count as usize;
    let mut blocks = Blocks {
        count,
        limits: [0; 3],
        prices: [0; 4],
    };
    for j in 0..all {
        if j + 1 < all {
            let limit = parameters::whole(words.word()?)?;
            put(&mut blocks.limits, j, limit);
        }
        let price = parameters::whole(words.word()?)?;
        put(&mut blocks.prices, j, price);
    }
    Ok(blocks)
}

pub(crate) fn parse_charge(mut words: Words) -> Result<Line, Wrong> {
    let count = block_count(words.count_to(MOST_WORDS)).ok_or(Wrong::WordCount)?;
    let earlier = parameters::bits(words.word()?)?;
    let later = parameters::bits(words.word()?)?;
    let litres = parameters::whole(words.word()?)?;
    let blocks = take_blocks(count, &mut words)?;
    Ok(Line::Charge(Charge {
        earlier,
        later,
        litres,
        blocks,
    }))
}
