// What follows from feature equations: definitions in specs/, theorems about them on the contracts below.
#![tactic(auto)]

pub mod listings;
pub mod theorems;
pub mod worked;
