// Kinds of value: what a value is, how values are ordered, and which of them are leaves.
#![tactic(auto)]

pub mod atoms;
pub mod examples;
pub mod kind;
pub mod masks;
pub mod meet;
pub mod types;
pub mod value_sets;
