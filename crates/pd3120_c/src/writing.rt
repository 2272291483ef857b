// The steps of a write over parts of the caller's module. Each is a call of its own in the compiled
// code: its copies would else stay on the stack of the whole write, which goes to 1288 bytes where
// `data` is inlined and to 1032 where `each` is. PD3120_CALL_STACK is 1024.
ghost use Rattle.std.specs.Prelude.{◌≡◌};
ghost use Rattle.registers.specs.Places.{placed};
ghost use Rattle.writes.specs.Begun.{data_by, each_written};

use model::{Channel, DataChannel, Shared};
use registers::Place;

// s is the shared record before the write.
#[inline(never)]
pub fn data(s: Shared, d: &mut DataChannel, swno: u16, bytes: &[u8])
    ensures { d.new ≡ data_by s swno bytes.now d.old }
{
    *d = writes::data_after(s, *d, swno, bytes);
}

#[inline(never)]
pub fn each(place: Place, word: u16, k: usize, ch: &mut Channel)
    ensures { ch.new ≡ each_written (placed place) word k ch.old }
{
    *ch = writes::each(place, word, k, *ch);
}
