// The paper's number and length of a reply.
ghost use Rattle.std.specs.Prelude.{◌≡◌};
ghost use Rattle.model.specs.Questions.{refusal_number, number_of, length_of};

use model::{Refusal, Reply};

// Document 01's number of each case, which stands in the code here alone: model's enum is a list of
// words. No `u8::from`: that would stand in model, which holds no function (docs/DECISIONS.md).
pub fn refusal_number(r: Refusal) -> u8
    ensures { result ≡ refusal_number r }
{
    match r {
        Refusal::Beyond => 1,
        Refusal::Unlisted => 2,
        Refusal::NotWritable => 3,
        Refusal::WrongLength => 4,
        Refusal::BufferTooShort => 5,
        Refusal::NotEnabled => 6,
        Refusal::NotAllowed => 7,
        Refusal::NoChannel => 8,
        Refusal::NotFinite => 9,
        Refusal::ImageLength => 10,
        Refusal::ImageCounts => 11,
        Refusal::ImageSum => 12,
        Refusal::ImageValues => 13,
        Refusal::NoRoom => 14,
        Refusal::NoTable => 15,
        Refusal::NotMinute => 18,
        Refusal::TooManyWindows => 19,
    }
}

// 0 where the call is done, and the refusal's number else.
pub fn number(r: Reply) -> u8
    ensures { result ≡ number_of r }
{
    r.err().map_or(0, refusal_number)
}

// 0 for a refusal.
pub fn length(r: Reply) -> usize
    ensures { result ≡ length_of r }
{
    r.unwrap_or(0)
}
