// A manual to be checked: names, and the sentences with the equations that they state. docs/agreement.md has the notation.
#![tactic(auto)]

pub mod context;
pub mod equation;
pub mod fault;
pub mod manual;
pub mod names;
pub mod place;
mod reading;
mod recording;
#[cfg(test)]
mod tests;
pub mod wording;
