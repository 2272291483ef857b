// What a channel's settings say: Functions, Enablebit, references, InA and InB, Output. ChConfig is
// held as its bytes, and decoded here, where it acts.
#![tactic(auto)]

ghost use Rattle.std.specs.Prelude.{◌≡◌};
ghost use Rattle.model.specs.Settings.{bit, function_of, not_input, is_special, reference_of, is_set, functions, ref_a, ref_b_of, has_reference, simulates_input};
ghost use Rattle.model.specs.Settings.{simulates_feedback, enables_underload, silences_overload, level_of, in_a, in_b_of, output};
ghost use Rattle.settings.specs.Levels.{levels_of};

use model::{Channel, Function, Reference};

// A byte that is not listed acts as 0.
#[tactic(auto, unfolding(model::specs::Settings::function_of))]
pub fn function_of(n: u8) -> Function
    ensures { result ≡ function_of n }
{
    match n {
        0x10 => Function::Output,
        0x20 => Function::OneShot,
        0x30 => Function::DutyCycle,
        0x50 => Function::Timer,
        _ => Function::Input,
    }
}

pub fn not_input(f: Function) -> bool
    ensures { result ≡ not_input f }
{
    !matches!(f, Function::Input)
}

pub fn is_special(f: Function) -> bool
    ensures { result ≡ is_special f }
{
    matches!(f, Function::OneShot | Function::DutyCycle | Function::Timer)
}

pub fn functions(ch: Channel) -> Function
    ensures { result ≡ functions ch }
{
    function_of(ch.config.functions)
}

// A byte above 16 acts as no reference.
pub fn reference_of(n: u8) -> Reference
    ensures { result ≡ reference_of n }
{
    if (1..=16).contains(&n) {
        return Reference::Channel(n);
    }
    Reference::None
}

pub fn is_set(r: Reference) -> bool
    ensures { result ≡ is_set r }
{
    match r {
        Reference::None => false,
        Reference::Channel(k) => (1..=16).contains(&k),
    }
}

pub fn ref_a(ch: Channel) -> Reference
    ensures { result ≡ ref_a ch }
{
    reference_of(ch.config.ref_a)
}

pub fn ref_b(ch: Channel) -> Reference
    ensures { result ≡ ref_b_of ch }
{
    reference_of(ch.config.ref_b)
}

pub fn has_reference(ch: Channel) -> bool
    ensures { result ≡ has_reference ch }
{
    is_set(ref_a(ch)) | is_set(ref_b(ch))
}

// Bit k of Enablebit.
fn enables(k: usize, ch: Channel) -> bool
    ensures { result ≡ bit k ch.config.enablebit }
{
    bit_of(u16::from(ch.config.enablebit), k)
}

// The four bits of Enablebit that act, each by the paper's name for it (specs/Settings).
pub fn simulates_input(ch: Channel) -> bool
    ensures { result ≡ simulates_input ch }
{
    enables(0, ch)
}

pub fn simulates_feedback(ch: Channel) -> bool
    ensures { result ≡ simulates_feedback ch }
{
    enables(2, ch)
}

pub fn enables_underload(ch: Channel) -> bool
    ensures { result ≡ enables_underload ch }
{
    enables(5, ch)
}

pub fn silences_overload(ch: Channel) -> bool
    ensures { result ≡ silences_overload ch }
{
    enables(6, ch)
}

// Bit k of a word; a u16 has none above 15. std has no method that tests a bit.
pub fn bit_of(word: u16, k: usize) -> bool
    ensures { result ≡ bit k word }
{
    k < 16 && (word >> k) % 2 == 1
}

// InFlag of a reference. Bit k-1 of levels is InFlag of channel k. The word goes beside a channel,
// and in no record with it: `in_a` and `in_b_of` (specs/Settings) are given the two.
pub fn level_of(levels: u16, r: Reference) -> bool
    ensures { result ≡ level_of (levels_of levels) r }
{
    match r {
        Reference::Channel(k) if (1..=16).contains(&k) => bit_of(levels, usize::from(k) - 1),
        _ => false,
    }
}

#[tactic(auto, unfolding(model::specs::Settings::in_a))]
pub fn in_a(levels: u16, ch: Channel) -> bool
    ensures { result ≡ in_a (levels_of levels) ch }
{
    if simulates_feedback(ch) {
        return ch.flags.out_flag;
    }
    level_of(levels, ref_a(ch))
}

// One function for InA and InB would be given the reference and the simulated level, which is all
// that they say.
#[tactic(auto, unfolding(model::specs::Settings::in_b_of))]
pub fn in_b(levels: u16, ch: Channel) -> bool
    ensures { result ≡ in_b_of (levels_of levels) ch }
{
    if simulates_feedback(ch) {
        return !ch.flags.out_flag;
    }
    level_of(levels, ref_b(ch))
}

#[tactic(auto, unfolding(model::specs::Settings::output))]
pub fn output(ch: Channel) -> bool
    ensures { result ≡ output ch }
{
    ch.flags.out_flag & not_input(functions(ch))
}
