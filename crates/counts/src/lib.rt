// Counts of time: a timer's in 1/256 s, an operating time's in 1/8 s, each a type of its own, so that
// neither is taken for the other. A tick, 1/32 s, is 8 of the first and a quarter of the second.
#![tactic(auto)]

ghost use Rattle.std.specs.Prelude.{◌≡◌, cond, ◌+◌, eqb, ltb, pos, ◌-ℤ◌};
ghost use Rattle.integers.specs.Integers.{larger};
ghost use Rattle.counts.specs.Counts.{free_run_tick, watchdog_tick, out_timer_tick, feedback_tick, counter_step, is_negative, is_positive};
ghost use Rattle.counts.specs.Counts.{operating_step, operating_tick};

use integers::signed;
use std::hint::select_unpredictable;

#[repr(C)]
#[derive(Clone, Copy)]
pub struct TimerCount(pub i32);

#[repr(C)]
#[derive(Clone, Copy)]
pub struct OperatingCount(pub u32);

// An operating count, and the quarters past it, 0 to 3.
#[repr(C)]
#[derive(Clone, Copy)]
pub struct Operating {
    pub count: OperatingCount,
    pub quarters: u8,
}

// A tick is 1/32 s.
const TICK: i32 = 8;

impl TimerCount {
    // `signed::wrapping_*` here and below, and not std's: their contracts speak of `wrapped`.
    #[tactic(auto, unfolding(crate::specs::Counts::free_run_tick))]
    pub fn free_run_tick(self) -> TimerCount
        ensures { result ≡ free_run_tick self }
    {
        TimerCount(signed::wrapping_add_i32(self.0, TICK))
    }

    #[tactic(auto, using(crate::proofs::Laws::Down::to_zero), unfolding(crate::specs::Counts::watchdog_tick))]
    pub fn watchdog_tick(self) -> TimerCount
        ensures { result ≡ watchdog_tick self }
    {
        TimerCount(self.0.saturating_sub(TICK).max(0))
    }

    // The manual's timer goes on from its largest value.
    #[tactic(auto, unfolding(crate::specs::Counts::out_timer_tick))]
    pub fn out_timer_tick(self) -> TimerCount
        ensures { result ≡ out_timer_tick self }
    {
        TimerCount(signed::wrapping_sub_i32(self.0, TICK))
    }

    // FBTimer counts through zero, and a negative count means that the time has passed: it must
    // not come round to a positive one.
    #[tactic(auto, using(crate::proofs::Laws::Down::to_lowest), unfolding(crate::specs::Counts::feedback_tick))]
    pub fn feedback_tick(self) -> TimerCount
        ensures { result ≡ feedback_tick self }
    {
        TimerCount(self.0.saturating_sub(TICK))
    }

    #[tactic(auto, unfolding(crate::specs::Counts::is_negative))]
    pub fn negative(self) -> bool
        ensures { result ≡ is_negative self }
    {
        self.0.is_negative()
    }

    #[tactic(auto, unfolding(crate::specs::Counts::is_positive))]
    pub fn positive(self) -> bool
        ensures { result ≡ is_positive self }
    {
        self.0.is_positive()
    }
}

impl OperatingCount {
    #[tactic(auto, unfolding(crate::specs::Counts::operating_step))]
    pub fn step(self) -> OperatingCount
        ensures { result ≡ operating_step self }
    {
        OperatingCount(self.0.saturating_add(1))
    }
}

// A quarter more. A number above 3 acts as 0, so no `(q + 1) % 4`.
fn more(q: u8) -> u8
    ensures { result ≡ cond (ltb q 3) (q + 1) (cond (eqb q 3) 0 1) }
{
    match q {
        0..=2 => q + 1,
        3 => 0,
        _ => 1,
    }
}

impl Operating {
    // A tick with InFlag on or off. Values are chosen: a branch on InFlag, or on the fourth quarter,
    // took longer where channels go on and off (docs/FIGURES.md).
    pub fn tick(self, on: bool) -> Operating
        ensures { result ≡ cond on (operating_tick self) self }
    {
        let full = on & (self.quarters == 3);
        Operating {
            count: select_unpredictable(full, self.count.step(), self.count),
            quarters: select_unpredictable(on, more(self.quarters), self.quarters),
        }
    }
}

#[tactic(auto, unfolding(crate::specs::Counts::counter_step))]
pub fn counter_step(n: i32) -> i32
    ensures { result ≡ counter_step n }
{
    signed::wrapping_add_i32(n, 1)
}
