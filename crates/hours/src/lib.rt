// Opening hours: the minute of the week as a tick begins, whether a channel is closed, and the
// windows that a call gives.
#![tactic(auto)]

ghost use Rattle.std.specs.Prelude.{◌≡◌, length};
ghost use Rattle.model.specs.Hours.{unset_clock, clock_at, clock_ticked, no_windows, window_of, timetable_of, time_of, within, opens, any_opens, closed};

use model::{Clock, Timetable, Window};

// The week's last minute.
pub const LAST_MINUTE: u16 = 10079;

// A number out of its range, and no Option: C gives a clock's layout (`repr(C)`, include/pd3120.h).
const UNSET: u16 = LAST_MINUTE + 1;

pub fn unset() -> Clock
    ensures { result ≡ unset_clock }
{
    set_to(UNSET)
}

// Each setting starts the count of ticks anew.
pub fn set_to(minute: u16) -> Clock
    ensures { result ≡ clock_at minute }
{
    Clock { minute, ticks: 0 }
}

// Each 1920th tick moves the minute; while it is unset nothing moves.
#[tactic(auto, unfolding(model::specs::Hours::clock_ticked))]
pub fn tick(clock: Clock) -> Clock
    ensures { result ≡ clock_ticked clock }
{
    if LAST_MINUTE < clock.minute {
        return clock;
    }
    if 1919 < clock.ticks {
        return Clock { ticks: 1, ..clock };
    }
    if clock.ticks < 1919 {
        return Clock {
            ticks: clock.ticks + 1,
            ..clock
        };
    }
    if clock.minute < LAST_MINUTE {
        return set_to(clock.minute + 1);
    }
    set_to(0)
}

// A start or an end out of its range acts as 0.
fn time_of(n: u16) -> u16
    ensures { result ≡ time_of n }
{
    if n <= LAST_MINUTE { n } else { 0 }
}

fn within(start: u16, end: u16, now: u16) -> bool
    ensures { result ≡ within start end now }
{
    if end < start {
        return (start <= now) | (now < end);
    }
    (start <= now) & (now < end)
}

fn opens(now: u16, w: Window) -> bool
    ensures { result ≡ opens now w }
{
    within(time_of(w.start), time_of(w.end), now)
}

fn any_opens(now: u16, windows: &[Window]) -> bool
    ensures { result ≡ any_opens now windows.now }
{
    windows.iter().any(|w| opens(now, *w))
}

// Outside all of a channel's windows, while the minute is set.
pub fn closed(clock: Clock, t: Timetable) -> bool
    ensures { result ≡ closed clock t }
{
    if LAST_MINUTE < clock.minute {
        return false;
    }
    if !(1..=8).contains(&t.count) {
        return false;
    }
    !any_opens(clock.minute, &t.windows[..usize::from(t.count)])
}

// A window of a call, its start times 65536 plus its end.
pub fn window_of(n: u32) -> Window
    ensures { result ≡ window_of n }
{
    let start = n / 65536;
    let end = n % 65536;
    Window {
        start: start as u16,
        end: end as u16,
    }
}

pub fn no_windows() -> Timetable
    ensures { result ≡ no_windows }
{
    Timetable {
        count: 0,
        windows: [Window { start: 0, end: 0 }; 8],
    }
}

// The windows of a call, whole. A call with more than eight is refused. By `ns[k]`: a proof does not
// see what is written through a `zip` of `iter_mut`.
pub fn timetable_of(ns: &[u32]) -> Timetable
    ensures { result ≡ timetable_of ns.now }
{
    let mut windows = no_windows().windows;
    let count = ns.len().min(8);
    for (k, w) in windows[..count].iter_mut().enumerate() {
        *w = window_of(ns[k]);
    }
    Timetable {
        count: count as u8,
        windows,
    }
}
