// A new responder.
ghost use Rattle.std.specs.Prelude.{IfOk};
ghost use Rattle.kinds.specs.Atoms.{atoms};
ghost use Rattle.answers.specs.Runs.{Promise};
ghost use Rattle.session.specs.Sessions.{graph, kept};

use crate::responder::{LISTING, Responder, TRAIL};
use kinds::atoms::Atoms;
use session::session::Session;
use std::alloc::{AllocError, Global};

impl Responder {
    // A responder with a new session. All memory is taken here.
    pub fn open(heap: Global) -> Result<Responder, AllocError>
        ensures { IfOk result (λ s. Promise graph kept atoms s.session) }
    {
        let trail = vec![in heap; 0; TRAIL]?;
        let listing = vec![in heap; 0; LISTING]?;
        let session = Session::open(heap, Atoms)?;
        Ok(Responder {
            session,
            trail,
            listing,
        })
    }
}
