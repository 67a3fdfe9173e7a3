// Type hierarchies written in names: reading them, and saying in words what comes of them.
#![tactic(auto)]

mod above;
mod entries;
mod entry;
mod fault;
mod judging;
mod links;
mod refusal;
mod report;
mod sheet;
#[cfg(test)]
mod tests;

pub use entry::Entry;
pub use fault::Fault;
pub use judging::Objection;
pub use refusal::Refusal;
pub use report::Report;
pub use sheet::Sheet;
