// An answer in one number: bits 0 to 7 the paper's number, bits 8 to 23 the length, bit 24
// DataError, bit 25 GeneralError.
ghost use Rattle.std.specs.Prelude.{◌≡◌, cond, ◌≤◌};
ghost use Rattle.model.specs.Image.{image_size};
ghost use Rattle.model.specs.Questions.{number_of, length_of};
ghost use Rattle.pd3120_c.specs.Codes.{packed, reply_code, level_code};

use model::{Refusal, Reply};
use pd3120::{WireBits, replies};

pub(crate) fn pack(reply: Reply, bits: WireBits) -> u32
    requires { length_of reply ≤ image_size }
    ensures { result ≡ reply_code reply bits.data_error bits.general_error }
{
    u32::from(replies::number(reply))
        + (replies::length(reply) as u32) * 256
        + u32::from(bits.data_error) * 16777216
        + u32::from(bits.general_error) * 33554432
}

// A lookup's: bits 0 to 31 those of its Real, bits 32 to 39 the number.
pub(crate) fn look_up_code(found: Result<u32, Refusal>) -> u64
    ensures { result ≡ level_code found }
{
    match found {
        Ok(bits) => u64::from(bits),
        Err(why) => u64::from(replies::refusal_number(why)) * 4294967296,
    }
}
