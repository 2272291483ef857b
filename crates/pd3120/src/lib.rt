// The PD 3120 channel box: every call on it. A box goes in by value and comes back by value; the
// bytes of a wire call stand in slices beside it. No function asks anything of its caller.
#![tactic(auto)]

ghost use Rattle.std.specs.Prelude.{◌≡◌, []};
ghost use Rattle.model.specs.Errors.{data_error_of, general_error_of};
ghost use Rattle.model.specs.Registers.{place};
ghost use Rattle.model.specs.Questions.{read_reply};
ghost use Rattle.model.specs.Calls.{read, write, sample, look_up, minute, windows, tick, step, cleared, watchdog_preset};
ghost use Rattle.pd3120.specs.Answers.{step_of, sample_of, look_up_of, tick_of, output_at, RecordBy, SharedBy, PoweredUp, StoredBy};
ghost use Rattle.writes.specs.Begun.{begun_with};
ghost use Rattle.pd3120.specs.Parts.{ReadBy, WriteBy};

mod calls;
pub mod lookups;
pub mod opening;
pub mod replies;
pub mod samples;

pub use calls::call;
use errors::words;
use errors::words::Words;
use model::{Channel, DataChannel, Module, Outcome, Refusal, Reply, Service, Shared};
use writes::{Begun, Rest};

// DataError and GeneralError.
#[derive(Clone, Copy)]
pub struct WireBits {
    pub data_error: bool,
    pub general_error: bool,
}

// Those of a call that answers none.
pub const NO_BITS: WireBits = WireBits {
    data_error: false,
    general_error: false,
};

// What a call answers, and the box that it leaves. real_bits are a lookup's, and 0 of any other call:
// the model's `Answer` has all parts for every call (`step_of`).
#[derive(Clone, Copy)]
pub struct Answered {
    pub after: Module,
    pub reply: Reply,
    pub bits: WireBits,
    pub real_bits: u32,
}

// What a read answers, and the two parts of the box that it may change: the service record and the
// SWNo's channel.
#[derive(Clone, Copy)]
pub struct Changed {
    pub service: Service,
    pub channel: Channel,
    pub reply: Reply,
    pub bits: WireBits,
}

// A refused image gives the box of all-zero settings.
pub fn power_up(img: &[u8]) -> Outcome<Module>
    ensures { PoweredUp img.now result }
{
    image::power_up(img)
}

// The kept values, as the first 886 bytes of the buffer.
pub fn store(m: Module, buf: &mut [u8]) -> Reply
    ensures { StoredBy m buf.old result buf.new }
{
    image::store(m, buf)
}

// `power_up` for a box that is there, without a second one beside it. docs/ARCHITECTURE.md names both.
pub fn power_up_in_place(m: &mut Module, img: &[u8]) -> Reply
    ensures { PoweredUp img.now (record { after = m.new; reply = result }) }
{
    image::power_up_in_place(m, img)
}

// Every wire call first clears Act bit 3 of the service channel. A changed copy, here and in the next:
// a struct update writes the record byte by byte, and the next call, which takes more than a byte at a
// time, has to wait for these.
fn clear(v: Service) -> Service
    ensures { RecordBy cleared v result }
{
    let mut next = v;
    next.act.wd_run_out = false;
    next
}

// And last sets WDTimer to WDPreset.
fn preset_watchdog(s: Shared, v: Service) -> Service
    ensures { SharedBy watchdog_preset s v result }
{
    let mut next = v;
    next.wd_timer = s.wd_preset;
    next
}

// The two bits, as they are in a box.
pub fn error_bits(m: Module) -> WireBits
    ensures { result ≡ record { data_error = data_error_of m; general_error = general_error_of m } }
{
    let any = words::any_errors(m.channels);
    WireBits {
        data_error: errors::data_error(m.service, any.act),
        general_error: errors::general_error(m.service, any.his),
    }
}

// For a caller that holds the box in its own memory and puts the parts back itself: s, v, ch, d and w
// are the box's shared and service records, the SWNo's channel, the data channel, and the words of all
// channels. The two bits are those before the acknowledgement. Parts, and no struct of them: the
// caller would copy the box into it (PD3120_CALL_STACK), and `ReadBy` speaks of each.
pub fn read_changes(
    s: Shared,
    v: Service,
    ch: Channel,
    d: DataChannel,
    w: Words,
    swno: u16,
    buf: &mut [u8],
) -> Changed
    ensures step { ReadBy s v ch d w swno buf.old result buf.new }
    ensures reply { result.reply ≡ read_reply swno (place swno) buf.old }
{
    let ready = clear(v);
    let done = reads::read(s, ready, ch, d, w, swno, buf);
    Changed {
        service: preset_watchdog(s, done.service),
        channel: done.channel,
        reply: done.reply,
        bits: WireBits {
            data_error: errors::data_error(ready, w.act != 0),
            general_error: errors::general_error(ready, w.his != 0),
        },
    }
}

pub fn read(m: Module, swno: u16, buf: &mut [u8]) -> Answered
    ensures { step_of result buf.new ≡ step m (read swno buf.old) }
{
    let at = registers::wire_slot(swno);
    let seen = words::of_channels(m.channels);
    let done = read_changes(
        m.shared,
        m.service,
        m.channels[at],
        m.data_channel,
        seen,
        swno,
        buf,
    );
    let mut next = m;
    next.service = done.service;
    next.channels[at] = done.channel;
    Answered {
        after: next,
        reply: done.reply,
        bits: done.bits,
        real_bits: 0,
    }
}

// For a caller that holds the box in its own memory: the records and the SWNo's channel that it puts
// back, and what `writes::data_after` and `writes::each` are then to do. Parts, as in `read_changes`:
// `WriteBy` speaks of each.
pub fn begin_write(s: Shared, v: Service, ch: Channel, swno: u16, bytes: &[u8]) -> Begun
    ensures { WriteBy s v ch swno bytes.now result }
{
    let mut shared = s;
    let mut service = v;
    let mut channel = ch;
    let rest = begin_write_in_place(&mut shared, &mut service, &mut channel, swno, bytes);
    Begun {
        shared,
        service,
        channel,
        rest,
    }
}

// The same for a caller that lends these parts. It is a call of its own in the compiled code: its
// copies would else take the stack of the exported write to 1208 bytes, and PD3120_CALL_STACK is 1024.
#[inline(never)]
pub fn begin_write_in_place(
    s: &mut Shared,
    v: &mut Service,
    ch: &mut Channel,
    swno: u16,
    bytes: &[u8],
) -> Rest
    ensures { WriteBy s.old v.old ch.old swno bytes.now (begun_with s.new v.new ch.new result) }
{
    *v = clear(*v);
    let rest = writes::begin_in_place(s, v, ch, swno, bytes);
    *v = preset_watchdog(*s, *v);
    rest
}

// The two bits are those after the effect.
pub fn write(m: Module, swno: u16, bytes: &[u8]) -> Answered
    ensures { step_of result [] ≡ step m (write swno bytes.now) }
{
    let mut cleared = m;
    cleared.service = clear(m.service);
    let done = writes::write(cleared, swno, bytes);
    let mut next = done.after;
    let bits = error_bits(next);
    next.service = preset_watchdog(next.shared, next.service);
    Answered {
        after: next,
        reply: done.reply,
        bits,
        real_bits: 0,
    }
}

// The level first, then the current.
pub fn sample(m: Module, channel: u8, level: bool, amperes: f32) -> Outcome<Module>
    ensures { sample_of result ≡ step m (sample channel level amperes) }
{
    let at = samples::slot(channel);
    let taken = samples::take(m.shared, m.channels[at], channel, level, amperes);
    let mut next = m;
    next.channels[at] = taken.after;
    Outcome {
        after: next,
        reply: taken.reply,
    }
}

// The bits of its Real, or why it is refused. The box stays as it is.
pub fn look_up(m: Module, table: u8, x: f32) -> Result<u32, Refusal>
    ensures { look_up_of result m ≡ step m (look_up table x) }
{
    lookups::look_up(m.data_channel, table, x)
}

// The minute of the week, 0 to 10079.
pub fn set_minute(m: Module, of_week: u16) -> Outcome<Module>
    ensures { sample_of result ≡ step m (minute of_week) }
{
    let set = opening::set_minute(m.shared, of_week);
    let after = Module {
        shared: set.after,
        ..m
    };
    Outcome {
        after,
        reply: set.reply,
    }
}

// A channel's windows, given whole; an empty slice takes them away. Each is one number, its start
// times 65536 plus its end. `sample`, `set_minute` and this have the same steps around the call: a
// function of a closure for all three would be as long as they are, and need a contract of its own.
pub fn set_windows(m: Module, channel: u8, given: &[u32]) -> Outcome<Module>
    ensures { sample_of result ≡ step m (windows channel given.now) }
{
    let at = samples::slot(channel);
    let taken = opening::set_windows(m.channels[at], channel, given);
    let mut next = m;
    next.channels[at] = taken.after;
    Outcome {
        after: next,
        reply: taken.reply,
    }
}

pub fn tick(m: Module) -> Module
    ensures { tick_of result ≡ step m tick }
{
    ticks::tick(m)
}

// Off for a number outside 1 to 16.
pub fn output(m: Module, channel: u8) -> bool
    ensures { result ≡ output_at m channel }
{
    let k = usize::from(channel);
    (1..=16).contains(&k) && settings::output(m.channels[k - 1])
}
