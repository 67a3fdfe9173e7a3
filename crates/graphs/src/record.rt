// A record of a listing.
ghost use Rattle.std.specs.Prelude.{◌≡◌, ◌<◌, ◌≤◌, length, take, drop, MatchOption};
ghost use Rattle.std.specs.Slice.Iter.{chunks_exact_rest, chunks_exact_size};
ghost use Rattle.graphs.specs.Listings.{record_length};

use std::slice::ChunksExact;

// The bytes of one record: a value, how many attributes it has, and each of these with the node that it leads to.
#[derive(Clone, Copy)]
pub struct Record<'a> {
    pub bytes: &'a [u8],
    ghost whole: { length bytes.now ≡ record_length bytes.now 0 },
}

impl<'a> Record<'a> {
    // The record at the front of the bytes, where they are long enough for it.
    pub fn first(bytes: &'a [u8]) -> Option<Record<'a>>
        ensures { MatchOption result (length bytes.now < record_length bytes.now 0) (λ r. (record_length bytes.now 0 ≤ length bytes.now) × (r.bytes.now ≡ take (record_length bytes.now 0) bytes.now)) }
    {
        let count = *bytes.get(8)?;
        let bytes = bytes.get(..9 + 3 * usize::from(count))?;
        Some(Record { bytes })
    }

    // Each attribute in one byte, and the node that it leads to in two.
    pub fn entries(&self) -> ChunksExact<'a, u8>
        ensures rest { chunks_exact_rest result ≡ drop 9 self.now.bytes.now }
        ensures size { chunks_exact_size result ≡ 3 }
    {
        self.bytes[9..].chunks_exact(3)
    }
}
