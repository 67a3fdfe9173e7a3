// A term as a line has it.
use terms::KeptTerm;

// A line of 120 bytes has room for 59 numbers.
const CAPACITY: usize = 60;

pub type Path = KeptTerm<CAPACITY>;
