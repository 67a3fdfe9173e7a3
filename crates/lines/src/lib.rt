// One line in, its bytes out.
#![tactic(auto)]

mod calls;
pub mod line_buffer;
mod opening;
pub mod responder;
mod responding;
pub mod theorems;
