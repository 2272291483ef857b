// Which Reals may be written: each range is asked of any f32. Four ranges, and not one function of
// two ends: each edit (timer_low_end_refused, preset_range_after_rounding, minus_zero_refused)
// changes one, and a call would be as long as the body.
ghost use Rattle.std.specs.Prelude.{◌≡◌};
ghost use Rattle.numbers.specs.Written.{timer_allowed, preset_allowed, operating_allowed, limit_allowed};

// OutTimer and FBTimer.
pub fn timer_allowed(x: f32) -> bool
    ensures { result ≡ timer_allowed x }
{
    (-8388608.0 <= x) & (x < 8388608.0)
}

// WDTimer and the presets.
pub fn preset_allowed(x: f32) -> bool
    ensures { result ≡ preset_allowed x }
{
    (0.0 <= x) & (x < 8388608.0)
}

// OperatingTime.
pub fn operating_allowed(x: f32) -> bool
    ensures { result ≡ operating_allowed x }
{
    (0.0 <= x) & (x < 536870912.0)
}

// MinCurrent and MaxCurrent.
pub fn limit_allowed(x: f32) -> bool
    ensures { result ≡ limit_allowed x }
{
    (0.0 <= x) & (x <= 1.0)
}
