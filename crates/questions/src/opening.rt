// The questions of opening hours: 18 of a minute, and for windows 8, 19, then 18.
ghost use Rattle.std.specs.Prelude.{◌≡◌, ◌&&◌};
ghost use Rattle.model.specs.Hours.{window_of};
ghost use Rattle.model.specs.Questions.{question18, are_minutes, minute_reply, windows_reply};

use crate::{ask, is_digital};
use model::{Refusal, Reply};

// 18. A minute of the week?
fn is_minute(n: u16) -> bool
    ensures { result ≡ question18 n }
{
    n <= hours::LAST_MINUTE
}

// 18 of the minute that is set.
#[tactic(auto, unfolding(model::specs::Questions::minute_reply))]
pub fn minute_reply(n: u16) -> Reply
    ensures { result ≡ minute_reply n }
{
    ask(is_minute(n), Refusal::NotMinute)?;
    Ok(0)
}

// 18 of a window's start and end.
fn in_week(n: u32) -> bool
    ensures { result ≡ question18 (window_of n).start && question18 (window_of n).end }
{
    let w = hours::window_of(n);
    is_minute(w.start) & is_minute(w.end)
}

// 18 of every start and end.
fn are_minutes(windows: &[u32]) -> bool
    ensures { result ≡ are_minutes windows.now }
{
    windows.iter().all(|n| in_week(*n))
}

// 8 of the channel, 19 of how many windows there are, then 18 of each.
#[tactic(auto, unfolding(model::specs::Questions::windows_reply))]
pub fn windows_reply(k: u8, windows: &[u32]) -> Reply
    ensures { result ≡ windows_reply k windows.now }
{
    ask(is_digital(k), Refusal::NoChannel)?;
    ask(windows.len() <= 8, Refusal::TooManyWindows)?;
    ask(are_minutes(windows), Refusal::NotMinute)?;
    Ok(0)
}
