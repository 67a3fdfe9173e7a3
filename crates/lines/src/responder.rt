// What responds to lines.
ghost use Rattle.std.specs.Prelude.{◌≡◌, vec_len};

use kinds::atoms::Atoms;
use session::session::Session;

// As many entries as the trail of a statement needs.
pub const TRAIL: usize = 272;

// As many bytes as the longest listing has.
pub const LISTING: usize = 27016;

// A session over atoms, with the memory for a trail and a listing.
#[derive(Drop)]
pub struct Responder {
    pub(crate) session: Session<Atoms>,
    pub(crate) trail: Vec<u16>,
    pub(crate) listing: Vec<u8>,
    ghost trail_room: { vec_len trail ≡ 272 },
    ghost listing_room: { vec_len listing ≡ 27016 },
}
