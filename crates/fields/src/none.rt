// What a power-up and a reset leave of flags, errors and timers.
use counts::TimerCount;
use model::{DataTimers, ErrorBits, Errors, Flags, ServiceBits};

pub const FLAGS: Flags = Flags {
    out_flag: false,
    in_flag: false,
    control: false,
    fb_status: false,
    internal_state: false,
};

pub const ERRORS: Errors = Errors {
    act: ErrorBits(0),
    his: ErrorBits(0),
};

pub const SERVICE_BITS: ServiceBits = ServiceBits {
    internal_reset: false,
    external_reset: false,
    wd_run_out: false,
};

pub const TIMERS: DataTimers = DataTimers {
    a: TimerCount(0),
    b: TimerCount(0),
};
