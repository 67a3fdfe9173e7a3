// Why bytes are no listing.

#[derive(Clone, Copy, PartialEq, Eq, Debug)]
pub enum Misread {
    // There are fewer than 8 bytes.
    Short,
    // The counts pass 256 nodes or 64 variables, or do not agree with the length.
    Counts,
    // The record of this node passes the place of the variables' nodes.
    RecordPasses(u16),
    // The records of this many nodes end before that place.
    RecordsEnd(u16),
    // The value of this node is none of the kind.
    NoValue(u16),
    // The attributes of this node pass 31 or do not rise.
    Attributes(u16),
    // An attribute of this node leads to no node.
    TargetOutside(u16),
    // This variable is on no node.
    VariableOutside(u16),
    // This node is a leaf and has attributes.
    LeafBranches(u16),
    // The nodes are not numbered in listing order, or not all are reached.
    NotInOrder,
}
