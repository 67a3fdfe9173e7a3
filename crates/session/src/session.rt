// What a session holds.
ghost use Rattle.std.specs.Prelude.{◌≤◌, vec_len, vec_capacity};
ghost use Rattle.tables.specs.Views.{Sound};

use crate::parts::Apart;
use closing::closer::Closer;
use kinds::kind::Kind;
use tables::table::Table;

// As many nodes as its graph can have between calls.
pub const NODES: usize = 256;

// As many aparts as it keeps.
pub const APARTS: usize = 128;

// A session over a kind of value: its graph, and the aparts that it keeps beside it.
#[derive(Drop)]
pub struct Session<K: Kind> {
    pub(crate) kind: K,
    pub(crate) table: Table,
    pub(crate) aparts: Vec<Apart>,
    // memory in which a statement is closed
    pub(crate) closer: Closer,
    ghost sound: { ∥ Sound table ∥₁ },
    ghost nodes: { vec_len table.rows ≤ 256 },
    ghost few: { vec_len aparts ≤ 128 },
    ghost room: { 128 ≤ vec_capacity aparts },
}
