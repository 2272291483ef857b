// A reading of the box: Counter of a channel, over the wire.
ghost use Rattle.std.specs.Prelude.{◌≡◌};
ghost use Rattle.charge.specs.Readings.{reading, shown};

use integers::bytes;
use model::{Module, Refusal};

// Counter is register 2 of a channel.
const COUNTER: u16 = 2;

// The box that a reading leaves, and Counter, or why there is none.
#[derive(Clone, Copy)]
pub struct Reading {
    pub after: Module,
    pub counter: Result<i32, Refusal>,
}

// The wire read itself, for a channel from 1 to 16, refused by the box's own number for any other.
// Two comparisons, `as` and a match: with `(1..=16).contains`, `u16::from` and `.map` the search
// leaves the goals `returns` and `returns-then-not-contains` open.
pub fn read_counter(m: Module, channel: u8) -> Reading
    ensures { shown result ≡ reading m channel }
{
    if channel < 1 || 16 < channel {
        return Reading {
            after: m,
            counter: Err(Refusal::NoChannel),
        };
    }
    let mut buf = [0u8; 4];
    let done = pd3120::read(m, (channel as u16) * 16 + COUNTER, &mut buf);
    let counter = match done.reply {
        Ok(_) => Ok(bytes::i32_of_bytes(buf)),
        Err(why) => Err(why),
    };
    Reading {
        after: done.after,
        counter,
    }
}
