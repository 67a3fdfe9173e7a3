// The attributes that a row has, as bits of a number, from the lowest up.
ghost use Rattle.std.specs.Prelude.{◌≡◌, ℕ, true};
ghost use Rattle.kinds.specs.Masks.{has};

use crate::node::Node;

// The attributes of a node and where they lead, from the lowest up: those that are to come are the bits of `left`.
#[derive(Clone, Copy)]
pub struct Edges<'a> {
    node: &'a Node,
    left: u32,
    ghost of_the_node: { (a : ℕ) → has left a ≡ true → has node.now.present a ≡ true },
}

impl<'a> Iterator for Edges<'a> {
    ghost use Rattle.std.specs.Prelude.{count_ones};
    ghost use Rattle.std.specs.Iterator.{at_most};
    ghost use Rattle.tables.specs.Attributes.{GivesEdge};

    type Item = (u16, u16);

    ghost next_gives = { GivesEdge };

    ghost remaining = { λ e. at_most (count_ones e.left) };

    fn next(&mut self) -> Option<(u16, u16)> {
        if self.left == 0 {
            return None;
        }
        let attribute = self.left.trailing_zeros() as u16;
        self.left &= self.left - 1;
        Some((attribute, self.node.targets[attribute as usize]))
    }
}

impl Node {
    ghost use Rattle.features.specs.Listing.{count, one_if};
    ghost use Rattle.tables.specs.Views.{edge_of};

    // Its attributes and where they lead.
    pub fn edges(&self) -> Edges<'_>
        ensures node { result.node.now ≡ self.now }
        ensures left { result.left ≡ self.now.present }
    {
        Edges {
            node: self,
            left: self.present,
        }
    }

    // How many attributes the node has.
    pub fn degree(&self) -> u32
        ensures { result ≡ count (λ a. one_if (edge_of self.now a)) 0 32 }
    {
        self.present.count_ones()
    }
}
