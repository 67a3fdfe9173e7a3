// What stands on rows.
ghost use Rattle.std.specs.Prelude.{◌≡◌, ◌⊎◌, ◌<◌, vec_len};
ghost use Rattle.growth.specs.Standing.{Meets};
ghost use Rattle.joining.specs.Workspaces.{standing, state, Put};

use crate::workspace::Workspace;
use kinds::kind::Kind;

// The greatest value at or below both, or none where one is none or there is no such value.
pub fn meet_states<K: Kind>(kind: &K, a: Option<u64>, b: Option<u64>) -> Option<u64>
    ensures { Meets (K.meaning kind.now) (λ o. (o ≡ standing a) ⊎ (o ≡ standing b)) (standing result) }
{
    kind.meet(a?, b?)
}

impl Workspace {
    // What stands on a row.
    pub fn state_of(&self, row: u16) -> Option<u64>
        requires { row < vec_len self.now.table.rows }
        ensures { standing result ≡ state self.now row }
    {
        if self.void[row as usize] {
            None
        } else {
            Some(self.table.rows[row as usize].value)
        }
    }

    // From now on this stands on the row.
    pub fn put_state(&mut self, row: u16, new: Option<u64>)
        requires { row < vec_len self.old.table.rows }
        ensures { Put row (standing new) self.old self.new }
    {
        match new {
            Some(value) => {
                self.table.row(row as usize).value = value;
                self.void[row as usize] = false;
            }
            None => self.void[row as usize] = true,
        }
    }

    // What comes meets what stands on the row: there stands from now on the greatest value at or below both, or nothing.
    pub fn meet_state<K: Kind>(&mut self, kind: &K, row: u16, other: Option<u64>)
        requires { row < vec_len self.old.table.rows }
        ensures put { Put row (state self.new row) self.old self.new }
        ensures met { Meets (K.meaning kind.now) (λ o. (o ≡ state self.old row) ⊎ (o ≡ standing other)) (state self.new row) }
    {
        let met = meet_states(kind, self.state_of(row), other);
        self.put_state(row, met);
    }
}
