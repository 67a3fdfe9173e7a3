// A table of rows: one graph.
use crate::node::Node;

// The rows hold the nodes of a graph, and the roots the nodes of its variables. A plain record: one row is lent to be changed, so that what every
// graph keeps stands in contracts, as `Sound`.
#[derive(Drop)]
pub struct Table {
    pub rows: Vec<Node>,
    pub roots: Vec<u16>,
}
