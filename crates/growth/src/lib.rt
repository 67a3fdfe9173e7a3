// How the graph of what was said changes with one statement more: definitions in specs/, theorems about them on the contracts below.
#![tactic(auto)]

pub mod growth;
pub mod joins;
