// The bytes of the data channel's registers, put first in the lent buffer: a table is wider than any
// other register, and goes there pair by pair.
ghost use Rattle.std.specs.Prelude.{◌≡◌, ◌≤◌, length};
ghost use Rattle.model.specs.Registers.{data_row};
ghost use Rattle.numbers.specs.Reals.{real_bytes};
ghost use Rattle.model.specs.Reads.{timer_bytes, pairs_bytes, data_bytes};
ghost use Rattle.model.specs.Image.{table_size};
ghost use Rattle.model.specs.Calls.{overwritten};

use counts::TimerCount;
use model::{DataChannel, DataRegister, LevelTable};
use numbers::{reals, times};

fn put_timer(t: TimerCount, buf: &mut [u8])
    requires { 4 ≤ length buf.old }
    ensures { buf.new ≡ overwritten (timer_bytes t) buf.old }
{
    put_real(times::timer_real(t), buf);
}

fn put_real(x: f32, buf: &mut [u8])
    requires { 4 ≤ length buf.old }
    ensures { buf.new ≡ overwritten (real_bytes x) buf.old }
{
    buffers::put_array(reals::bytes_of(x), buf, 0);
}

// By value, and a call of its own in the compiled code: else every read of the box, of whatever
// register, copies both tables to its stack.
#[inline(never)]
fn put_table(t: LevelTable, buf: &mut [u8])
    requires { table_size ≤ length buf.old }
    ensures { buf.new ≡ overwritten (pairs_bytes t.pairs) buf.old }
{
    buffers::put_pairs(&t.pairs, buf, 0);
}

#[tactic(auto, unfolding(model::specs::Reads::data_bytes))]
pub(crate) fn fill(r: DataRegister, d: DataChannel, buf: &mut [u8])
    requires { (data_row r).size ≤ length buf.old }
    ensures { buf.new ≡ overwritten (data_bytes r d) buf.old }
{
    match r {
        DataRegister::RealA => put_real(d.reals.a, buf),
        DataRegister::RealB => put_real(d.reals.b, buf),
        DataRegister::TimerA => put_timer(d.timers.a, buf),
        DataRegister::TimerB => put_timer(d.timers.b, buf),
        DataRegister::LookUp1 => put_table(d.table1, buf),
        DataRegister::LookUp2 => put_table(d.table2, buf),
    }
}
