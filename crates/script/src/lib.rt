// Scripts of calls as text: what a line asks for, and how an answer is written. Nothing here knows
// the box. Every function is safe and ends; what it answers is compared with an independent player
// by running.
#![tactic(auto)]

pub mod calls;
pub mod charges;
mod digits;
pub mod lines;
pub mod parameters;
pub mod print;
pub mod windows;
mod words;
