// What a write of OutFlags or InFlags does to a channel, by the channel's bit of the written word.
ghost use Rattle.std.specs.Prelude.{◌≡◌};
ghost use Rattle.model.specs.Writes.{bit_written};

use model::{Channel, CommonRegister};

pub(crate) fn write_bit(r: CommonRegister, on: bool, ch: Channel) -> Channel
    ensures { result ≡ bit_written r on ch }
{
    match r {
        CommonRegister::OutFlags => channel::write_out_flag(on, ch),
        CommonRegister::InFlags => channel::simulate(on, ch),
        _ => ch,
    }
}
