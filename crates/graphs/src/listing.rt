// A listing that is being read.
ghost use Rattle.graphs.specs.Rows.{TrailerOf};

use crate::trailer::Trailer;

// Bytes whose last eight are read, and the kind of the values that stand in them.
#[derive(Drop)]
pub struct Listing<'a, K> {
    pub kind: &'a K,
    pub bytes: &'a [u8],
    pub trailer: Trailer,
    ghost counted: { TrailerOf bytes.now trailer },
}
