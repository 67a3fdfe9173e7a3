// Maps from one graph into another.
#![tactic(auto)]

mod below;
mod images;
pub mod maps;
