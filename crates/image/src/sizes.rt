// How long each section of the setup image is, and where each value stands.

// The count bytes before the sections: of the box, of its channels, of the data channel, and of the
// sum.
pub const ONE_MODULE: u8 = 1;

pub const ALL_CHANNELS: u8 = 16;

pub const ONE_DATA: u8 = 1;

pub const ONE_SUM: u8 = 1;

pub const CHANNELS: usize = ALL_CHANNELS as usize;

// A setting, a count, a Real and most user bytes.
pub const WORD: usize = 4;

// The box's own section: ModuleConfig and WDPreset.
pub const WD_PRESET: usize = WORD;

pub const MODULE: usize = WD_PRESET + WORD;

// An entry: registers 9, 7, 8, A, B, C, D, 5, 2 and 4.
pub const FEEDBACK: usize = WORD;

pub const OUT: usize = FEEDBACK + WORD;

pub const MIN: usize = OUT + WORD;

pub const MAX: usize = MIN + WORD;

pub const REALS: usize = MAX + WORD;

pub const MAINTENANCE: usize = REALS + 2 * WORD;

pub const USER: usize = MAINTENANCE + WORD;

pub const COUNTER: usize = USER + WORD;

pub const OPERATING: usize = COUNTER + WORD;

pub const ENTRY: usize = OPERATING + WORD;

// The data channel's section: RealA, RealB and two tables of ten pairs.
pub const REAL_B: usize = WORD;

pub const TABLE1: usize = REAL_B + WORD;

pub const TABLE: usize = 10 * (2 * WORD);

pub const TABLE2: usize = TABLE1 + TABLE;

pub const DATA: usize = TABLE2 + TABLE;

// The image: a count before each section and before the sum. One that is older than the data channel
// has the sum's count in the place of the third.
pub const OWN: usize = 1;

pub const SECOND_COUNT: usize = OWN + MODULE;

pub const ENTRIES: usize = SECOND_COUNT + 1;

pub const THIRD_COUNT: usize = ENTRIES + CHANNELS * ENTRY;

pub const DATA_CHANNEL: usize = THIRD_COUNT + 1;

pub const FOURTH_COUNT: usize = DATA_CHANNEL + DATA;

pub const SUM: usize = FOURTH_COUNT + 1;

// The sum's own bytes, and what stands at the end of every image: its count and those.
pub const SUM_BYTES: usize = 2;

const END: usize = 1 + SUM_BYTES;

// How long an image is by the last section that it has, and what is stored.
pub const WITH_CHANNELS: usize = THIRD_COUNT + END;

pub const WITH_DATA: usize = FOURTH_COUNT + END;

pub const IMAGE: usize = WITH_DATA;
