// The listing of a session's graph.
ghost use Rattle.std.specs.Prelude.{◌≡◌};
ghost use Rattle.answers.specs.Answers.{list as listing, lists};
ghost use Rattle.answers.specs.Runs.{Step, asked};
ghost use Rattle.session.specs.Sessions.{graph, kept};

use crate::session::Session;
use answers::refusal::Refusal;
use kinds::kind::Kind;
use listings::writer::write;

impl<K: Kind> Session<K> {
    // Writes the graph, in listing order, and answers how many bytes that took; the rest of the buffer keeps its bytes.
    pub fn list(&mut self, out: &mut [u8]) -> Result<usize, Refusal>
        ensures step { Step graph kept (K.meaning self.old.kind) self.old (asked (listing out.old) (lists result out.new)) self.new }
        ensures kind { self.new.kind ≡ self.old.kind }
    {
        self.closer.list(&self.table);
        match write(&self.closer.next, out) {
            Ok(used) => Ok(used),
            Err(short) => Err(Refusal::ShortBuffer(short.needed)),
        }
    }
}
