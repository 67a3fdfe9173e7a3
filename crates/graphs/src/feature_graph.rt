// A graph that its caller holds.
ghost use Rattle.std.specs.Prelude.{◌≤◌, vec_len, vec_capacity};
ghost use Rattle.features.specs.Numbering.{BreadthFirst};
ghost use Rattle.tables.specs.Views.{graph, Sound};

use tables::table::Table;

// A graph in listing order; the second table has room to read the next one.
#[derive(Drop)]
pub struct FeatureGraph {
    pub(crate) table: Table,
    pub(crate) spare: Table,
    ghost sound: { ∥ Sound table ∥₁ },
    ghost few: { vec_len table.rows ≤ 256 },
    ghost row_room: { 272 ≤ vec_capacity spare.rows },
    ghost root_room: { 64 ≤ vec_capacity spare.roots },
    ghost ordered: { ∥ BreadthFirst (graph table) ∥₁ },
}
