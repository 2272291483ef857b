// Any of the seven calls, as one value that names it.
ghost use Rattle.std.specs.Prelude.{◌≡◌, []};
ghost use Rattle.model.specs.Calls.{look_up, step};
ghost use Rattle.pd3120.specs.Answers.{step_of, request_of, answer_buffer, lent_after, plain_of};

use crate::{Answered, NO_BITS, look_up, read, sample, set_minute, set_windows, tick, write};
use model::{Call, Module, Outcome};

// Samples, calls of opening hours and ticks answer no bits.
fn plain(s: Outcome<Module>) -> Answered
    ensures { result ≡ plain_of s }
{
    Answered {
        after: s.after,
        reply: s.reply,
        bits: NO_BITS,
        real_bits: 0,
    }
}

// A lookup answers its Real besides.
fn looked_up(m: Module, table: u8, x: f32) -> Answered
    ensures { step_of result [] ≡ step m (look_up table x) }
{
    let found = look_up(m, table, x);
    Answered {
        after: m,
        reply: found.map(|_| 0),
        bits: NO_BITS,
        real_bits: found.unwrap_or(0),
    }
}

// Any of the seven calls: a write takes its bytes from written, a channel is given the windows of the
// slice windows, and a read lends lent.
pub fn call(m: Module, c: Call, written: &[u8], windows: &[u32], lent: &mut [u8]) -> Answered
    ensures answer { step_of result (answer_buffer c lent.new) ≡ step m (request_of c written.now windows.now lent.old) }
    ensures buffer { lent.new ≡ lent_after c m lent.old }
{
    match c {
        Call::Read(swno) => read(m, swno, lent),
        Call::Write(swno) => write(m, swno, written),
        Call::Sample(channel, level, amperes) => plain(sample(m, channel, level, amperes)),
        Call::LookUp(table, x) => looked_up(m, table, x),
        Call::Minute(minute) => plain(set_minute(m, minute)),
        Call::Windows(channel) => plain(set_windows(m, channel, windows)),
        Call::Tick => plain(Outcome {
            after: tick(m),
            reply: Ok(0),
        }),
    }
}
