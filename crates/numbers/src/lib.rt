// Reals, and the counts that they become. Nothing above this crate looks at the bits of a Real.
#![tactic(auto)]

pub mod reals; // Reals, their bits and their bytes
pub mod times; // counts read as Reals, and Reals that become counts
pub mod written; // which Reals a register allows
