// What an accepted write of a data register does to the data channel. A table is held once, so that a
// write of it is kept at once.
ghost use Rattle.std.specs.Prelude.{◌≡◌, true, length};
ghost use Rattle.model.specs.Registers.{data_row};
ghost use Rattle.model.specs.Writes.{data_allowed, data_written};

use model::{DataChannel, DataRegister, Shared};
use numbers::times;

// RealA and RealB are kept while WriteEnable is TRUE.
#[tactic(auto, unfolding(model::specs::Writes::data_written))]
pub(crate) fn write_data(r: DataRegister, s: Shared, b: &[u8], d: DataChannel) -> DataChannel
    requires { (length b.now ≡ (data_row r).size) × (data_allowed r b.now ≡ true) }
    ensures { result ≡ data_written r s b.now d }
{
    let mut next = d;
    match r {
        DataRegister::RealA => {
            let x = fields::real_from(b);
            next.reals.a = x;
            if s.write_enable {
                next.kept.a = x;
            }
        }
        DataRegister::RealB => {
            let x = fields::real_from(b);
            next.reals.b = x;
            if s.write_enable {
                next.kept.b = x;
            }
        }
        DataRegister::TimerA => next.timers.a = times::timer_count(fields::real_from(b)),
        DataRegister::TimerB => next.timers.b = times::timer_count(fields::real_from(b)),
        DataRegister::LookUp1 => next.table1 = fields::table_from(b),
        DataRegister::LookUp2 => next.table2 = fields::table_from(b),
    }
    next
}
