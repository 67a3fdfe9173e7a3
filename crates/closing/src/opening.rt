// A closer with all its memory.
use crate::closer::Closer;
use joining::workspace::{Pair, Workspace};
use numbering::numbers::Numbers;
use std::alloc::{AllocError, Global};
use tables::storage::CAPACITY;
use tables::table::Table;

// The joins that can wait at once: each but the first has used up one attribute of a joined row.
const PAIRS: usize = 8705;

impl Closer {
    pub fn new(heap: Global) -> Result<Closer, AllocError> {
        let work = Workspace::new(heap)?;
        let next = Table::new(heap)?;
        let numbers = Numbers::new(heap)?;
        let pairs = vec![in heap; Pair { left: 0, right: 0 }; PAIRS]?;
        let waiting = vec![in heap; 0; CAPACITY]?;
        Ok(Closer {
            work,
            next,
            numbers,
            pairs,
            waiting,
        })
    }
}
