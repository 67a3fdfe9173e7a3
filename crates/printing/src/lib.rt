// What answers look like in print, put into a buffer.
#![tactic(auto)]

pub mod answering;
mod hexadecimal;
pub mod line;
mod numbers;
pub mod outcome;
pub mod refusals;
