// The whole tick, 1/32 s: it begins with step 1 on the shared record and the watchdog, and then goes
// over the data channel, and over the channels, each by itself against the InFlags of the tick's start.
// A record is changed in its copy where it stands: see channel.
#![tactic(auto)]

ghost use Rattle.std.specs.Prelude.{◌≡◌, cond, map};
ghost use Rattle.model.specs.State.{in_flag_of};
ghost use Rattle.model.specs.Errors.{bit_value, word_of};
ghost use Rattle.model.specs.Tick.{save_due, tick_shared, watchdog_on, is_zero, runs_out, tick_service, driven, look_due, looked, operated, judged, saved, ticked};
ghost use Rattle.settings.specs.Levels.{levels_of};
ghost use Rattle.ticks.specs.Begun.{begun_of, ticked_by, data_ticked_by};
ghost use Rattle.ticks.specs.PutBack.{put_back};

use counts::TimerCount;
use model::{Channel, DataChannel, DataTimers, Module, Service, Shared};
use std::hint::select_unpredictable;

// What a tick has worked out when it comes to the channels: the shared record and the service record
// after step 1, how many channels it saves in the end (all or none), whether the watchdog ran out,
// and, where it looks at the feedback, the InFlags, bit k-1 for channel k. count is 16 or 0, as
// `begun_of` (specs/Begun) has it, and the bound of the loop that saves.
#[derive(Clone, Copy)]
pub struct Begun {
    pub shared: Shared,
    pub service: Service,
    pub count: usize,
    pub ran_out: bool,
    pub levels: u16,
}

// Ten hours are 1152000 ticks. A count past them acts as the last.
pub fn save_due(s: Shared) -> bool
    ensures { result ≡ save_due s }
{
    1151999 <= s.save_ticks
}

pub fn tick_shared(s: Shared) -> Shared
    ensures { result ≡ tick_shared s }
{
    let mut next = s;
    next.free_run_timer = s.free_run_timer.free_run_tick();
    next.clock = hours::tick(s.clock);
    if save_due(s) {
        next.save_ticks = 0;
        return next;
    }
    next.save_ticks += 1;
    next
}

// Any value but $10 leaves the watchdog on.
fn watchdog_on(s: Shared) -> bool
    ensures { result ≡ watchdog_on s }
{
    s.module_config.functions != 0x10
}

fn is_zero(t: TimerCount) -> bool
    ensures { result ≡ is_zero t }
{
    t.0 == 0
}

// s and t are those of the tick's start.
pub fn runs_out(s: Shared, t: TimerCount) -> bool
    ensures { result ≡ runs_out s t }
{
    is_zero(t.watchdog_tick()) & watchdog_on(s)
}

pub fn tick_service(ran_out: bool, v: Service) -> Service
    ensures { result ≡ tick_service ran_out v }
{
    let mut next = v;
    next.wd_timer = v.wd_timer.watchdog_tick();
    next.act.wd_run_out |= ran_out;
    next.his.wd_run_out |= ran_out;
    next
}

// The InFlags, from channel 16 down, so that channel 1 comes to bit 0. Not `words::of_channels`:
// ticks doesn't stand on errors, and that makes four words.
pub fn levels(channels: [Channel; 16]) -> u16
    ensures { result ≡ word_of (map in_flag_of channels) }
{
    let mut r: u16 = 0;
    for ch in channels.iter().rev() {
        r = r * 2 + u16::from(ch.flags.in_flag);
    }
    r
}

// The InFlags, where the tick looks at them. s is the shared record after step 1.
fn levels_looked_at(s: Shared, channels: [Channel; 16]) -> u16
    ensures { result ≡ cond (look_due s) (word_of (map in_flag_of channels)) 0 }
{
    if review::look_due(s) {
        return levels(channels);
    }
    0
}

// Step 1, and what the channels will need of the box as the tick found it.
pub fn begin(m: Module) -> Begun
    ensures { result ≡ begun_of m }
{
    let before = m.shared;
    let ran_out = runs_out(before, m.service.wd_timer);
    let after = tick_shared(before);
    Begun {
        shared: after,
        service: tick_service(ran_out, m.service),
        count: select_unpredictable(save_due(before), 16, 0),
        ran_out,
        levels: levels_looked_at(after, m.channels),
    }
}

// Steps 2 to 6 on one channel, which is off where the watchdog ran out.
fn tick_channel(s: Shared, ran_out: bool, levels: u16, ch: Channel) -> Channel
    ensures { result ≡ judged s (operated (looked s (levels_of levels) (driven s ran_out ch))) }
{
    review::review(s, levels, drive::drive(s, ran_out, ch))
}

// Takes from the channel after steps 2 to 6 only the parts that these can change, so that a caller
// who writes the result over ch has only these to write.
fn put_back(after: Channel, ch: Channel) -> Channel
    ensures { result ≡ put_back after ch }
{
    let mut next = ch;
    next.flags = after.flags;
    next.out_timer = after.out_timer;
    next.fb_timer = after.fb_timer;
    next.errors.act.0 = after.errors.act.0;
    next.errors.his.0 = after.errors.his.0;
    next.operating = after.operating;
    next.quarters = after.quarters;
    next
}

// One channel, up to step 6.
pub fn tick_one(b: Begun, ch: Channel) -> Channel
    ensures { result ≡ ticked_by b ch }
{
    put_back(tick_channel(b.shared, b.ran_out, b.levels, ch), ch)
}

// The data channel: its timers run, and a tick that saves keeps RealA.
pub fn tick_data(b: Begun, d: DataChannel) -> DataChannel
    ensures { result ≡ data_ticked_by b d }
{
    let timers = DataTimers {
        a: d.timers.a.out_timer_tick(),
        b: d.timers.b.out_timer_tick(),
    };
    let mut next = d;
    next.timers = timers;
    if 0 < b.count {
        next.kept.a = d.reals.a;
    }
    next
}

// From channel 16 to 1, since the terminal board latches 16 first, each with step 7. By index: a
// proof knows no element after `iter_mut().rev()` (as in pd3120_tick). By value; pd3120_tick goes
// over C's module in its place: sixteen channels are 1792 bytes, and PD3120_CALL_STACK is 1024.
// `saved due` is the model's: a tick saves all or none.
fn tick_channels(b: Begun, due: bool, channels: [Channel; 16]) -> [Channel; 16]
    ensures { result ≡ map (λ ch. saved due (ticked_by b ch)) channels }
{
    let mut next = channels;
    for k in (0..16).rev() {
        next[k] = review::save(due, tick_one(b, next[k]));
    }
    next
}

pub fn tick(m: Module) -> Module
    ensures { result ≡ ticked m }
{
    let b = begin(m);
    let due = save_due(m.shared);
    Module {
        shared: b.shared,
        service: b.service,
        channels: tick_channels(b, due, m.channels),
        data_channel: tick_data(b, m.data_channel),
    }
}
