// Terms as callers give them, and as a session keeps those of its aparts.
use terms::KeptTerm;
pub use terms::Term;

// As many attributes as a term of an accepted call can have.
pub const LONGEST: usize = 8;

// A term of an accepted call, kept.
pub type Held = KeptTerm<LONGEST>;

// Two terms that are to denote two nodes, or at least one of them nothing.
#[derive(Clone, Copy)]
pub struct Apart {
    pub left: Held,
    pub right: Held,
}
