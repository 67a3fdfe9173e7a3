// What a hierarchy that is written well comes to.
ghost use Rattle.std.specs.Prelude.{vec_len};
ghost use Rattle.hierarchy_text.specs.Judging.{Judged};

use crate::sheet::Sheet;
use kinds::types::{Misfit, Types};

// What can be wrong with it, by the numbers of its types.
#[derive(Clone, Copy)]
pub enum Objection {
    // These two have common subtypes and no greatest of them; the first such pair.
    NoGreatest(u16, u16),
    // This one is the top and is marked, or is below a marked type and is not; the first such.
    WrongMark(u16),
}

impl Sheet {
    // The hierarchy that is written, or why there is none. No other ground to refuse it is left.
    pub fn hierarchy(&self) -> Result<Types, Objection>
        ensures { Judged (vec_len self.now.entries.list) self.now.links.items self.now.marks result }
    {
        let mut types = Types::fresh();
        let count = self.entries.list.len() as u16;
        match types.fill(count, self.links.as_slice(), self.marks) {
            Ok(()) => Ok(types),
            Err(Misfit::NoGreatest(a, b)) => Err(Objection::NoGreatest(a, b)),
            Err(Misfit::WrongMark(t)) => Err(Objection::WrongMark(t)),
            Err(Misfit::WrongCount) => unreachable(),
            Err(Misfit::WrongLink(_)) => unreachable(),
            Err(Misfit::Unlinked(_)) => unreachable(),
        }
    }
}
