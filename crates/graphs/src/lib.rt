// Graphs of their own: read from listings and written to them.
#![tactic(auto)]

mod attributes;
mod counts;
pub mod feature_graph;
mod fields;
mod listing;
pub mod making;
pub mod misread;
pub mod naming;
mod ordering;
pub mod reading;
mod record;
mod records;
mod roots;
#[cfg(test)]
mod tests;
pub mod theorems;
mod trailer;
pub mod writing;
