// What registers show of all sixteen channels at once, as words; and whether any channel has errors.
// Each of the two goes through the channels once, and the registers are made of the words.
ghost use Rattle.std.specs.Prelude.{◌≡◌};
ghost use Rattle.errors.specs.Words.{words_of, any_of};

use crate::{any_bit, bits};
use model::Channel;

// OutFlags, InFlags and the two words of IOChError: bit k-1 for channel k.
#[derive(Clone, Copy)]
pub struct Words {
    pub out_flags: u16,
    pub in_flags: u16,
    pub his: u16,
    pub act: u16,
}

// From channel 16 down, so that channel 1 comes to bit 0.
pub fn of_channels(channels: [Channel; 16]) -> Words
    ensures { result ≡ words_of channels }
{
    let mut out: u16 = 0;
    let mut input: u16 = 0;
    let mut his: u16 = 0;
    let mut act: u16 = 0;
    for ch in channels.iter().rev() {
        let flags = ch.flags;
        let errors = ch.errors;
        out = bits::more(out, flags.out_flag);
        input = bits::more(input, flags.in_flag);
        his = bits::more(his, any_bit(errors.his));
        act = bits::more(act, any_bit(errors.act));
    }
    Words {
        out_flags: out,
        in_flags: input,
        his,
        act,
    }
}

// Whether His, and whether Act, of any channel is not 0.
#[derive(Clone, Copy)]
pub struct AnyErrors {
    pub his: bool,
    pub act: bool,
}

// A call that shows no word reads the error bytes alone.
pub fn any_errors(channels: [Channel; 16]) -> AnyErrors
    ensures { result ≡ any_of channels }
{
    let mut his = false;
    let mut act = false;
    for ch in &channels {
        his |= any_bit(ch.errors.his);
        act |= any_bit(ch.errors.act);
    }
    AnyErrors { his, act }
}
