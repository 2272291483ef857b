// The C boundary of the box: every call under a C name, over a module in the caller's memory. A
// wire call's bytes stand in the caller's buffer, and its answer is one number (specs/Codes.antt).
// No function asks anything of its caller beyond what a reference itself carries.
#![tactic(auto)]

ghost use Rattle.std.specs.Prelude.{◌≡◌};
ghost use Rattle.model.specs.Calls.{read, write, sample, look_up, minute, windows, step};
ghost use Rattle.pd3120.specs.Answers.{output_at};
ghost use Rattle.pd3120_c.specs.Codes.{Left, LeftLent, Ticked, PoweredUp, Stored, look_up_code};

mod codes;
mod writing;

use errors::words;
use model::Module;
use pd3120::{NO_BITS, lookups, opening, samples};

// A refused image gives the box of all-zero settings.
#[unsafe(no_mangle)]
pub extern "C" fn pd3120_power_up(m: &mut Module, image: &[u8]) -> u32
    ensures { PoweredUp image.now m.new result }
{
    codes::pack(pd3120::power_up_in_place(m, image), NO_BITS)
}

// The kept values, as the first 886 bytes of the buffer.
#[unsafe(no_mangle)]
pub extern "C" fn pd3120_store(m: &Module, buf: &mut [u8]) -> u32
    ensures { Stored m.now buf.old result buf.new }
{
    codes::pack(pd3120::store(*m, buf), NO_BITS)
}

#[unsafe(no_mangle)]
pub extern "C" fn pd3120_read(m: &mut Module, swno: u16, buf: &mut [u8]) -> u32
    ensures { LeftLent (step m.old (read swno buf.old)) m.new result buf.new }
{
    let at = registers::wire_slot(swno);
    let seen = words::of_channels(m.channels);
    let done = pd3120::read_changes(
        m.shared,
        m.service,
        m.channels[at],
        m.data_channel,
        seen,
        swno,
        buf,
    );
    m.service = done.service;
    m.channels[at] = done.channel;
    codes::pack(done.reply, done.bits)
}

// The data channel is written only where the register comes to it, so that other writes do not copy
// it.
#[unsafe(no_mangle)]
pub extern "C" fn pd3120_write(m: &mut Module, swno: u16, bytes: &[u8]) -> u32
    ensures { Left (step m.old (write swno bytes.now)) m.new result }
{
    let at = registers::wire_slot(swno);
    let before = m.shared;
    let ch = &mut m.channels[at];
    let rest = pd3120::begin_write_in_place(&mut m.shared, &mut m.service, ch, swno, bytes);
    if rest.of_data {
        writing::data(before, &mut m.data_channel, swno, bytes);
    }
    for (k, ch) in m.channels[..rest.count].iter_mut().enumerate() {
        writing::each(rest.place, rest.word, k, ch);
    }
    codes::pack(rest.reply, pd3120::error_bits(*m))
}

// The level first, then the current.
#[unsafe(no_mangle)]
pub extern "C" fn pd3120_sample(m: &mut Module, channel: u8, level: bool, amperes: f32) -> u32
    ensures { Left (step m.old (sample channel level amperes)) m.new result }
{
    let at = samples::slot(channel);
    let taken = samples::take(m.shared, m.channels[at], channel, level, amperes);
    m.channels[at] = taken.after;
    codes::pack(taken.reply, NO_BITS)
}

// The minute of the week, 0 to 10079.
#[unsafe(no_mangle)]
pub extern "C" fn pd3120_set_minute(m: &mut Module, of_week: u16) -> u32
    ensures { Left (step m.old (minute of_week)) m.new result }
{
    let set = opening::set_minute(m.shared, of_week);
    m.shared = set.after;
    codes::pack(set.reply, NO_BITS)
}

// A channel's windows, given whole, each its start times 65536 plus its end.
#[unsafe(no_mangle)]
pub extern "C" fn pd3120_set_windows(m: &mut Module, channel: u8, given: &[u32]) -> u32
    ensures { Left (step m.old (windows channel given.now)) m.new result }
{
    let at = samples::slot(channel);
    let taken = opening::set_windows(m.channels[at], channel, given);
    m.channels[at] = taken.after;
    codes::pack(taken.reply, NO_BITS)
}

// The answer's number and the bits of its Real (specs/Codes.antt).
#[unsafe(no_mangle)]
pub extern "C" fn pd3120_look_up(m: &Module, table: u8, x: f32) -> u64
    ensures { result ≡ look_up_code (step m.now (look_up table x)).answer }
{
    codes::look_up_code(lookups::look_up(m.data_channel, table, x))
}

// From channel 16 to 1, since the terminal board latches 16 first. The save is a loop of its own, so
// that the ticks without it, all but one in ten hours, do not touch the kept values. By index: with
// `iter_mut().rev()`, over `m.channels` or, tried with bytes, over a slice that is a parameter, the goal
// `returns` stays open: what the elements are after the loop.
#[unsafe(no_mangle)]
pub extern "C" fn pd3120_tick(m: &mut Module)
    ensures { Ticked m.old m.new }
{
    let begun = ticks::begin(*m);
    m.shared = begun.shared;
    m.service = begun.service;
    m.data_channel = ticks::tick_data(begun, m.data_channel);
    for k in (0..16).rev() {
        m.channels[k] = ticks::tick_one(begun, m.channels[k]);
    }
    for k in (0..begun.count).rev() {
        m.channels[k] = review::keep(m.channels[k]);
    }
}

// Off for a number outside 1 to 16.
#[unsafe(no_mangle)]
pub extern "C" fn pd3120_output(m: &Module, channel: u8) -> bool
    ensures { result ≡ output_at m.now channel }
{
    pd3120::output(*m, channel)
}
