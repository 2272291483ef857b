// The questions of wire calls, samples and lookups, and in `opening` those of opening hours, in order:
// each answer is the refusal of the first question whose answer is no, or what is done.
#![tactic(auto)]

ghost use Rattle.std.specs.Prelude.{◌≡◌, true, false, OnOk, OnErr, IfErr};
ghost use Rattle.model.specs.Settings.{is_digital};
ghost use Rattle.model.specs.Questions.{question1, question2, question3, question4, question6, read_reply, write_reply, sample_reply, look_up_reply};
ghost use Rattle.registers.specs.Places.{placed};

pub mod opening;
mod values;

use model::{Refusal, Reply};
use numbers::reals;
use registers::Place;

// 1. SWNo at most $13F?
fn within(swno: u16) -> bool
    ensures { result ≡ question1 swno }
{
    swno <= 0x13F
}

// 2. Register listed?
fn listed(p: Place) -> bool
    ensures { result ≡ question2 (placed p) }
{
    !matches!(p, Place::Unlisted)
}

// 3. On a write, writable?
fn writable(p: Place) -> bool
    ensures { result ≡ question3 (placed p) }
{
    registers::is_writable(registers::access(p))
}

// 4. On a write, exact length?
fn exact(p: Place, bytes: &[u8]) -> bool
    ensures { result ≡ question4 (placed p) bytes.now }
{
    bytes.len() == registers::size(p)
}

// 6. On a write of a protected register, WriteEnable TRUE?
fn enabled(enable: bool, p: Place) -> bool
    ensures { result ≡ question6 enable (placed p) }
{
    !registers::is_protected(registers::access(p)) | enable
}

// The refusal of a question whose answer is no.
pub fn ask(yes: bool, refusal: Refusal) -> Result<(), Refusal>
    ensures yes { OnOk result (yes ≡ true) }
    ensures no { OnErr result (yes ≡ false) }
    ensures why { IfErr result (λ r. r ≡ refusal) }
{
    if yes { Ok(()) } else { Err(refusal) }
}

// Questions 1, 2 and 5, of a read into a lent buffer; p is the place of the SWNo.
#[tactic(auto, unfolding(model::specs::Questions::read_reply))]
pub fn read_reply(swno: u16, p: Place, lent: &[u8]) -> Reply
    ensures { result ≡ read_reply swno (placed p) lent.now }
{
    ask(within(swno), Refusal::Beyond)?;
    ask(listed(p), Refusal::Unlisted)?;
    let size = registers::size(p);
    ask(size <= lent.len(), Refusal::BufferTooShort)?;
    Ok(size)
}

// Questions 1, 2, 3, 4, 6 and 7, of a write; enable is WriteEnable.
#[tactic(auto, unfolding(model::specs::Questions::write_reply))]
pub fn write_reply(enable: bool, swno: u16, p: Place, bytes: &[u8]) -> Reply
    ensures { result ≡ write_reply enable swno (placed p) bytes.now }
{
    ask(within(swno), Refusal::Beyond)?;
    ask(listed(p), Refusal::Unlisted)?;
    ask(writable(p), Refusal::NotWritable)?;
    ask(exact(p, bytes), Refusal::WrongLength)?;
    ask(enabled(enable, p), Refusal::NotEnabled)?;
    ask(values::allowed(p, bytes), Refusal::NotAllowed)?;
    Ok(0)
}

// 8. Channel 1 to 16?
pub(crate) fn is_digital(k: u8) -> bool
    ensures { result ≡ is_digital k }
{
    (1..=16).contains(&k)
}

// 8 of the channel, then 9 of the current.
#[tactic(auto, unfolding(model::specs::Questions::sample_reply))]
pub fn sample_reply(k: u8, x: f32) -> Reply
    ensures { result ≡ sample_reply k x }
{
    ask(is_digital(k), Refusal::NoChannel)?;
    ask(reals::is_finite(x), Refusal::NotFinite)?;
    Ok(0)
}

// 15 of the table's number, and 7 of X. A number: the exported `pd3120_look_up` is given one, and
// question 15 asks it.
#[tactic(auto, unfolding(model::specs::Questions::look_up_reply))]
pub fn look_up_reply(k: u8, x: f32) -> Reply
    ensures { result ≡ look_up_reply k x }
{
    ask((k == 1) | (k == 2), Refusal::NoTable)?;
    ask(reals::is_finite(x), Refusal::NotAllowed)?;
    Ok(0)
}
