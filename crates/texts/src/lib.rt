// What a text in lines is made of: its lines, without comments, and names by their numbers.
#![tactic(auto)]

pub mod line;
pub mod named;
#[cfg(test)]
mod tests;
