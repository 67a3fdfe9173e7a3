// The graph of a session, found by questions.
ghost use Rattle.std.specs.Prelude.{IfOk};
ghost use Rattle.sentences.specs.Outlines.{Numbered};

use crate::asking::{Asking, Branch};
use crate::failure::Failure;
use crate::outline::{Edge, Mention, Node, Outline};
use kinds::atoms::Atoms;
use manuals::place::Place;
use session::session::{NODES, Session};
use std::alloc::Global;

impl Outline {
    // The nodes of the words, then those of their attributes, and so on.
    pub fn of(
        heap: Global,
        session: &Session<Atoms>,
        words: u16,
        attributes: u16,
    ) -> Result<Outline, Failure>
        ensures { IfOk result (λ outline. Numbered outline.nodes.items) }
    {
        let asking = Asking { heap, session };
        let mut outline = Outline {
            words: Vec::new(heap),
            nodes: Vec::new(heap),
        };
        for word in 0..words {
            let mention = outline.mention(&asking, Place::of(heap, word))?;
            outline.words.push(mention)?;
        }
        // a loop to the most nodes that a session has, as no clause says that new ones run out
        for i in 0..NODES {
            let Some(node) = outline.nodes.get(i) else {
                break;
            };
            let branches = asking.branches(&node.trail, attributes)?;
            let edges = outline.edges(&asking, branches)?;
            if let Some(node) = outline.nodes.get_mut(i) {
                node.edges = edges;
            }
        }
        number(&mut outline.nodes);
        Ok(outline)
    }

    // The node of a term that denotes one: an earlier one, or else a new one.
    fn mention(&mut self, asking: &Asking, place: Place) -> Result<Mention, Failure> {
        for (i, node) in self.nodes.iter_mut().enumerate() {
            if asking.same(&node.trail, &place)? {
                node.shared = true;
                return Ok(Mention::Later(i));
            }
        }
        let value = asking.value(&place)?;
        self.nodes.push(Node {
            trail: place,
            value,
            edges: Vec::new(asking.heap),
            shared: false,
            label: None,
        })?;
        Ok(Mention::First(self.nodes.len() - 1))
    }

    // What the branches of a node lead to.
    fn edges(&mut self, asking: &Asking, branches: Vec<Branch>) -> Result<Vec<Edge>, Failure> {
        let mut edges = Vec::new(asking.heap);
        for Branch { attribute, place } in branches {
            let target = self.mention(asking, place)?;
            edges.push(Edge { attribute, target })?;
        }
        Ok(edges)
    }
}

// Numbers the nodes that are mentioned more than once.
fn number(nodes: &mut [Node])
    ensures { Numbered nodes.new }
{
    let mut last = 0;
    for node in nodes.iter_mut() {
        last += usize::from(node.shared);
        node.label = node.shared.then_some(last);
    }
}
