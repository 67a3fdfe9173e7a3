// A new session.
ghost use Rattle.std.specs.Prelude.{◌≡◌, IfOk};
ghost use Rattle.answers.specs.Runs.{Promise};
ghost use Rattle.session.specs.Sessions.{graph, kept};

use crate::session::{APARTS, Session};
use closing::closer::Closer;
use kinds::kind::Kind;
use std::alloc::{AllocError, Global};
use tables::table::Table;

impl<K: Kind + Drop> Session<K> {
    // A session with no variable and no node, over a kind that it keeps unaltered. All memory is taken here.
    pub fn open(heap: Global, kind: K) -> Result<Session<K>, AllocError>
        ensures { IfOk result (λ s. Promise graph kept (K.meaning kind) s × (s.kind ≡ kind)) }
    {
        let table = Table::new(heap)?;
        let aparts = Vec::with_capacity(heap, APARTS)?;
        let closer = Closer::new(heap)?;
        Ok(Session {
            kind,
            table,
            aparts,
            closer,
        })
    }
}
