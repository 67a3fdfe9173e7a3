// The equations that a sentence states.
use crate::place::Place;

#[derive(Drop)]
pub enum Equation {
    // two terms denote one node
    Equal(Place, Place),
    // a term denotes a node with the value of this number
    Valued(Place, u16),
}
