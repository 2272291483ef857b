// Whole numbers of a fixed width, and their bytes on the wire.
#![tactic(auto)]

pub mod bytes; // numbers to and from bytes, high byte first
pub mod signed; // signed numbers: their bits, and sums that wrap
