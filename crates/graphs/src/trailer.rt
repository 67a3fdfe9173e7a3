// The last eight bytes.

#[derive(Clone, Copy)]
pub struct Trailer {
    pub nodes: usize,
    pub variables: usize,
    pub place: usize,
}
