// What a closed graph shows.
ghost use Rattle.std.specs.Prelude.{◌≡◌, ℕ, ◌<◌, ◌≤◌, List, length, OnOk, ◌≢◌, vec_len};
ghost use Rattle.std.proofs.Math.Option.{none as contradiction};
ghost use Rattle.features.specs.Terms.{Statement};
ghost use Rattle.answers.specs.Answers.{Closed};
ghost use Rattle.closing.specs.Closings.{Arranged, closed_state};
ghost use Rattle.session.specs.Judging.{Ready};
ghost use Rattle.session.specs.Sessions.{kept};

use crate::session::{NODES, Session};
use answers::refusal::Refusal;
use kinds::kind::Kind;

impl<K: Kind> Session<K> {
    // The first clash, in the order of their numbers, or that there are too many nodes. For a clash of values or of leaves the trail of the
    // first node at fault is written; nothing else is.
    pub(crate) fn judge(&self, trail: &mut [u16]) -> Result<(), Refusal>
        requires arranged { Arranged self.now.closer }
        requires space { 272 ≤ length trail.old }
        ensures closed { (vars : ℕ) (said : List Statement) → Ready (K.meaning self.now.kind) (kept self.now) self.now.closer vars said → Closed (K.meaning self.now.kind) vars said trail.old result trail.new }
        ensures fits { OnOk result ((vec_len self.now.closer.next.rows ≤ 256) × ((k : ℕ) → k < vec_len self.now.closer.numbers.listed → closed_state self.now.closer k ≢ contradiction)) }
    {
        if let Some(k) = self.closer.first_void() {
            let (variable, count) = self.closer.numbers.trail(k as usize, trail);
            return Err(Refusal::ValueClash(variable, count));
        }
        if let Some(k) = self.closer.first_leaf(&self.kind) {
            let (variable, count) = self.closer.numbers.trail(k as usize, trail);
            return Err(Refusal::LeafClash(variable, count));
        }
        if let Some(place) = self.first_broken(&self.closer.next) {
            return Err(Refusal::ApartClash(place));
        }
        if self.closer.next.rows.len() > NODES {
            return Err(Refusal::NodesFull);
        }
        Ok(())
    }
}
