// One row: the value of a node, which attributes it has, and where they lead.
#[derive(Clone, Copy)]
pub struct Node {
    pub value: u64,
    pub present: u32,
    pub targets: [u16; 32],
}
