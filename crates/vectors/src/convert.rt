// What a word becomes: the functions that the box runs, by the kinds that reference/vectors names.
ghost use Rattle.std.specs.Prelude.{◌≡◌, true, OnOk};

use counts::{OperatingCount, TimerCount};
use integers::bytes;
use numbers::{reals, times, written};

// Why a word becomes nothing.
#[derive(Clone, Copy)]
pub enum NoAnswer {
    OutOfRange,
    UnknownKind,
}

// A word's four bytes, and what the box reads in them.
#[derive(Clone, Copy)]
pub struct Word(pub [u8; 4]);

impl Word {
    fn real(self) -> f32 {
        reals::of_bytes(self.0)
    }

    fn signed(self) -> i32 {
        bytes::i32_of_bytes(self.0)
    }

    fn unsigned(self) -> u32 {
        bytes::u32_of_bytes(self.0)
    }

    // Of a kind of two bytes.
    fn short(self) -> u16 {
        let [_, _, c, d] = self.0;
        bytes::u16_of_bytes([c, d])
    }

    fn timer(self) -> TimerCount {
        TimerCount(self.signed())
    }

    fn operating(self) -> OperatingCount {
        OperatingCount(self.unsigned())
    }
}

fn ask(allowed: bool) -> Result<(), NoAnswer>
    ensures { OnOk result (allowed ≡ true) }
{
    if allowed {
        Ok(())
    } else {
        Err(NoAnswer::OutOfRange)
    }
}

// A Real written to a register: question 7, then the value. A current is kept as it is.
fn write(kind: u8, x: f32) -> Result<[u8; 4], NoAnswer> {
    match kind {
        b't' => {
            ask(written::timer_allowed(x))?;
            Ok(bytes::bytes_of_i32(times::timer_count(x).0))
        }
        b'p' => {
            ask(written::preset_allowed(x))?;
            Ok(bytes::bytes_of_i32(times::timer_count(x).0))
        }
        b'o' => {
            ask(written::operating_allowed(x))?;
            Ok(bytes::bytes_of_u32(times::operating_count(x).0))
        }
        b'l' => {
            ask(written::limit_allowed(x))?;
            Ok(reals::bytes_of(x))
        }
        b'c' => {
            ask(reals::is_finite(x))?;
            Ok(reals::bytes_of(x))
        }
        _ => Err(NoAnswer::UnknownKind),
    }
}

// A count, or a Real, read as a Real.
fn read(kind: u8, word: Word) -> Result<[u8; 4], NoAnswer> {
    let x = match kind {
        b't' => times::timer_real(word.timer()),
        b'o' => times::operating_real(word.operating()),
        b'b' => word.real(),
        _ => return Err(NoAnswer::UnknownKind),
    };
    Ok(reals::bytes_of(x))
}

// A timer's count, or Counter or an operating count, one step on.
fn step(kind: u8, word: Word) -> Result<[u8; 4], NoAnswer> {
    let n = match kind {
        b'o' => word.timer().out_timer_tick().0,
        b'f' => word.timer().feedback_tick().0,
        b'w' => word.timer().watchdog_tick().0,
        b'r' => word.timer().free_run_tick().0,
        b'c' => counts::counter_step(word.signed()),
        b'p' => return Ok(bytes::bytes_of_u32(word.operating().step().0)),
        _ => return Err(NoAnswer::UnknownKind),
    };
    Ok(bytes::bytes_of_i32(n))
}

// By the kind's two letters, which are matched where they choose: an enum would be a second list of
// the same kinds. A kind of two bytes is a number of 16 bits, in 32.
pub fn convert(kind: [u8; 2], word: Word) -> Result<[u8; 4], NoAnswer> {
    let [first, second] = kind;
    match first {
        b'w' => write(second, word.real()),
        b'r' => read(second, word),
        b's' => step(second, word),
        b'u' => Ok(bytes::bytes_of_u32(u32::from(word.short()))),
        _ => Err(NoAnswer::UnknownKind),
    }
}
