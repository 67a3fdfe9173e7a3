// A call with its operands.
use crate::path::Path;

#[derive(Clone, Copy)]
pub enum Command {
    Declare,
    Equals(Path, Path),
    Is(Path, u64),
    Apart(Path, Path),
    Same(Path, Path),
    Value(Path),
    List,
}
