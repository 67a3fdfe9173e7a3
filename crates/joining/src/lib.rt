// Joining nodes of a table, and what lies beneath them.
#![tactic(auto)]

pub mod attributes;
pub mod beginning;
pub mod classes;
pub mod giving;
pub mod resolving;
pub mod settling;
pub mod states;
pub mod storage;
pub mod uniting;
pub mod workspace;
