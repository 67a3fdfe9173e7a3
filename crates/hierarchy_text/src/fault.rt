// What can be wrong with the notation.
use std::alloc::AllocError;
use thiserror::Error;

// Each case but the first two begins with the line at fault, counted from 1.
#[derive(Debug, Drop, Error)]
pub enum Fault {
    #[error("There is not enough memory.")]
    Memory(#[from(alloc)] AllocError),
    // no line names a type
    #[error("No line names a type. The first type is the top.")]
    Empty,
    // no name before the colon or the mark
    #[error("Line {0}: there is no name at the start of the line.")]
    NoName(usize),
    // what stands there for a name is none
    #[error("Line {0}: `{1}` is no name. A name is one word of visible ASCII characters other than `:`, `!` and `#`.")]
    WrongName(usize, String),
    // the name has a line above already
    #[error("Line {0}: the type `{1}` stands on line {2} already.")]
    Repeated(usize, String, usize),
    #[error("Line {0}: this is one type too many. There can be 64.")]
    TooMany(usize),
    // the first type has a supertype
    #[error("Line {0}: `{1}` is the first type, which is the top, and so has no supertype.")]
    TopBelow(usize, String),
    // a later type has none
    #[error("Line {0}: `{1}` has no supertype. Every type but the first has at least one.")]
    NoSupertype(usize, String),
    // no line has the supertype
    #[error("Line {0}: no line has the supertype `{1}`.")]
    Unknown(usize, String),
    // the supertype does not stand above its subtype, but on this line
    #[error("Line {0}: the supertype `{1}` stands on line {2}. A supertype stands above its subtypes.")]
    NotAbove(usize, String, usize),
}
