// What opening hours do to the shared record and to a channel, for a caller that holds the box in its
// own memory and puts these back itself.
ghost use Rattle.std.specs.Prelude.{◌≡◌};
ghost use Rattle.model.specs.State.{with_clock, with_timetable};
ghost use Rattle.model.specs.Hours.{clock_at, timetable_of};
ghost use Rattle.pd3120.specs.Parts.{MinuteBy, WindowsBy};

use model::{Channel, Outcome, Shared};

fn with_minute(s: Shared, minute: u16) -> Shared
    ensures { result ≡ with_clock (clock_at minute) s }
{
    let mut next = s;
    next.clock = hours::set_to(minute);
    next
}

// s is the box's shared record.
pub fn set_minute(s: Shared, minute: u16) -> Outcome<Shared>
    ensures { MinuteBy minute s result }
{
    let reply = questions::opening::minute_reply(minute);
    let after = match reply {
        Ok(_) => with_minute(s, minute),
        Err(_) => s,
    };
    Outcome { after, reply }
}

fn with_windows(ch: Channel, windows: &[u32]) -> Channel
    ensures { result ≡ with_timetable (timetable_of windows.now) ch }
{
    let mut next = ch;
    next.timetable = hours::timetable_of(windows);
    next
}

// ch is the channel at the place that `samples::slot` gives. Each window is its start times 65536 plus
// its end.
pub fn set_windows(ch: Channel, channel: u8, windows: &[u32]) -> Outcome<Channel>
    ensures { WindowsBy channel windows.now ch result }
{
    let reply = questions::opening::windows_reply(channel, windows);
    let after = match reply {
        Ok(_) => with_windows(ch, windows),
        Err(_) => ch,
    };
    Outcome { after, reply }
}
