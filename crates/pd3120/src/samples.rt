// What a sample does to its channel, for a caller that holds the box in its own memory and puts the
// channel back itself.
ghost use Rattle.std.specs.Prelude.{◌≡◌, ◌<◌};
ghost use Rattle.registers.specs.Places.{slot_of};
ghost use Rattle.pd3120.specs.Parts.{SampleBy};

use model::{Channel, Outcome, Shared};

// The channel's place by the number that a sample has, a byte. For a number that is no channel's it
// is that of channel 1, which the refused sample leaves as it is.
pub fn slot(channel: u8) -> usize
    ensures { (result ≡ slot_of channel) × (result < 16) }
{
    registers::slot(usize::from(channel))
}

// s is the box's shared record, ch the channel at the place that `slot` gives. channel, level and
// amperes stand apart, as the exported `pd3120_sample` is given them.
// `opening`'s two end alike and differ in the call: one function of a closure for the three would
// need clauses for Ok and for Err, and be as long as the lines that it spares.
pub fn take(s: Shared, ch: Channel, channel: u8, level: bool, amperes: f32) -> Outcome<Channel>
    ensures { SampleBy channel level amperes s ch result }
{
    let reply = questions::sample_reply(channel, amperes);
    let after = match reply {
        Ok(_) => channel::take_sample(s, level, amperes, ch),
        Err(_) => ch,
    };
    Outcome { after, reply }
}
