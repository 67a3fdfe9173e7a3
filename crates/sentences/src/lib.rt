// Sentences checked by a session over atoms, and what comes of it in words.
#![tactic(auto)]

mod asking;
mod clashing;
pub mod failure;
pub mod findings;
pub mod matrix;
pub mod orders;
pub mod outline;
mod outlining;
pub mod report;
mod stating;
mod trying;
pub mod verdict;
