// A table in which rows are being joined.
ghost use Rattle.std.specs.Prelude.{◌≡◌, vec_len};
ghost use Rattle.tables.specs.Views.{Sound};

use tables::table::Table;

// Two rows that are to become one.
#[derive(Clone, Copy)]
pub struct Pair {
    pub left: u16,
    pub right: u16,
}

// `class` has the representative of each row, and `void` says on which rows no value stands, since none is at or below all that came there.
// `joins` counts the joins of two different rows.
#[derive(Drop)]
pub struct Workspace {
    pub table: Table,
    // Beside the rows, since it is lent whole, as a slice, where targets become representatives.
    pub class: Vec<u16>,
    // Beside the values, since a row on which nothing stands keeps its value: the row is later one of a graph, whose rows all have values.
    pub void: Vec<bool>,
    pub joins: usize,
    pub ghost sound: { ∥ Sound table ∥₁ },
    pub ghost classes: { vec_len class ≡ 272 },
    pub ghost voids: { vec_len void ≡ 272 },
}
