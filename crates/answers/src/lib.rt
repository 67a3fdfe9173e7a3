// What every call of a session answers, from what was declared and said before it alone; and what follows for whole runs of calls.
#![tactic(auto)]

pub mod refusal;
pub mod theorems;
