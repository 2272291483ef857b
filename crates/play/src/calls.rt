// What the lines of a script do to the box.
use model::{Call, Module, Reply};
use numbers::reals;
use pd3120::{Answered, NO_BITS};
use script::calls::Line;

// A box, and an answer with no bits.
fn plain(after: Module, reply: Reply) -> Answered {
    Answered {
        after,
        reply,
        bits: NO_BITS,
        real_bits: 0,
    }
}

fn power(image: &[u8]) -> Answered {
    let started = pd3120::power_up(image);
    plain(started.after, started.reply)
}

fn store(m: Module, lent: &mut [u8]) -> Answered {
    let reply = pd3120::store(m, lent);
    plain(m, reply)
}

// Makes a call so many times over, and answers as the last does: once, but for ticks. The parts are
// as pd3120::call takes them. By a count of its own: the edit ticks_never_end takes its step away,
// and a `for` has no measure that could fail.
fn make(
    m: Module,
    c: Call,
    times: u32,
    written: &[u8],
    windows: &[u32],
    lent: &mut [u8],
) -> Answered {
    let mut answered = plain(m, Ok(0));
    let mut left = times;
    while 0 < left {
        answered = pd3120::call(answered.after, c, written, windows, lent);
        left -= 1;
    }
    answered
}

// A call that writes no bytes, and gives no channel its windows.
fn once(m: Module, c: Call, lent: &mut [u8]) -> Answered {
    make(m, c, 1, b"", &[], lent)
}

// bytes are the image, the written bytes or the lent buffer.
pub(crate) fn perform(m: Module, line: Line, bytes: &mut [u8]) -> Answered {
    match line {
        // a charge is no call on the box, and the outputs are a question beside the calls
        Line::Empty | Line::Charge(_) | Line::Outputs => plain(m, Ok(0)),
        Line::Power => power(bytes),
        Line::Store => store(m, bytes),
        Line::Read(swno) => once(m, Call::Read(swno), bytes),
        Line::Write(swno) => make(m, Call::Write(swno), 1, bytes, &[], &mut []),
        Line::Sample(channel, level, real) => {
            let amperes = reals::of_bits(real);
            once(m, Call::Sample(channel, level, amperes), bytes)
        }
        Line::LookUp(table, real) => once(m, Call::LookUp(table, reals::of_bits(real)), bytes),
        Line::Tick(n) => make(m, Call::Tick, n, b"", &[], bytes),
        Line::Minute(n) => once(m, Call::Minute(n), bytes),
        Line::Windows(channel, windows) => {
            let numbers = &windows.numbers[..windows.count];
            make(m, Call::Windows(channel), 1, b"", numbers, bytes)
        }
    }
}
