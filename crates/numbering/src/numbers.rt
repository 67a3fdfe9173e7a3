// The numbers of rows.
ghost use Rattle.std.specs.Prelude.{◌≡◌, ◌≤◌, vec_capacity, vec_len};

use crate::mention::Mention;

// A row that has a number, and how it was first mentioned.
#[derive(Clone, Copy)]
pub struct Listed {
    pub row: u16,
    pub mention: Mention,
}

// `listed[k]` is the row with the number `k`, and `number[row]` the number of a row.
// A row has a number where `listed[number[row]]` is that row, so an old number does no harm, and none has to be cleared.
#[derive(Drop)]
pub struct Numbers {
    pub listed: Vec<Listed>,
    pub number: Vec<u16>,
    pub ghost few: { vec_len listed ≤ 272 },
    pub ghost room: { 272 ≤ vec_capacity listed },
    pub ghost rows: { vec_len number ≡ 272 },
}
