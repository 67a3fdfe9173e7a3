// How a node was first mentioned: by a variable on it, or by an attribute of a node that has a number.
#[derive(Clone, Copy)]
pub enum Mention {
    Variable(u16),
    // `giver` is the number of the node
    Attribute { giver: u16, attribute: u16 },
}
