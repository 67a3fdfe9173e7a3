// A graph as it is drawn: each node once, and its number wherever else it is mentioned.
ghost use Rattle.std.specs.Prelude.{◌≡◌, MatchOption, slice_get};
ghost use Rattle.sentences.specs.Outlines.{label_of};

use manuals::place::Place;

// Nodes are named by their places, as one is mentioned in several ways, and may be reached from itself.
#[derive(Drop)]
pub struct Outline {
    // for each word its node; the words' names belong to the manual
    pub words: Vec<Mention>,
    pub nodes: Vec<Node>,
}

#[derive(Drop)]
pub struct Node {
    // the first term that denotes it
    pub trail: Place,
    // the number of its value, where it has one
    pub value: Option<u16>,
    pub edges: Vec<Edge>,
    // it is mentioned more than once
    pub shared: bool,
    // its boxed number then
    pub label: Option<usize>,
}

#[derive(Clone, Copy)]
pub struct Edge {
    pub attribute: u16,
    pub target: Mention,
}

// A node where it is mentioned.
#[derive(Clone, Copy)]
pub enum Mention {
    First(usize),
    Later(usize),
}

impl Outline {
    // The boxed number of a node that is mentioned more than once: such nodes are counted from 1.
    pub fn label(&self, node: usize) -> Option<usize>
        ensures { MatchOption (slice_get self.now.nodes.items node) (result ≡ None) (λ n. result ≡ label_of self.now.nodes.items node n) }
    {
        if !self.nodes.get(node)?.shared {
            return None;
        }
        Some(
            self.nodes[..=node]
                .iter()
                .filter(|node| node.shared)
                .count(),
        )
    }
}
