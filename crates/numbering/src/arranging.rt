// A table whose rows are in listing order.
ghost use Rattle.std.specs.Prelude.{◌≡◌, ℕ, ◌<◌, ◌≤◌, vec_capacity, vec_len};
ghost use Rattle.std.proofs.Math.Option.{some as leads_to, map};
ghost use Rattle.features.specs.Graphs.{SameGraph};
ghost use Rattle.tables.specs.Views.{edge_of, graph, Sound};
ghost use Rattle.numbering.specs.Given.{num};
ghost use Rattle.numbering.specs.Frontier.{Numbered, in_numbers};
ghost use Rattle.numbering.specs.Arranged.{Moved};

use crate::numbers::Numbers;
use tables::node::Node;
use tables::table::Table;

impl Numbers {
    // Fills `into` with the numbered rows of `from`, in the order of their numbers, and by their numbers.
    pub fn arrange(&self, from: &Table, into: &mut Table)
        requires sound { Sound from.now }
        requires room { Sound into.old }
        requires numbered { Numbered (graph from.now) self.now }
        ensures same { SameGraph (graph into.new) (in_numbers (graph from.now) self.now) }
        ensures sound { Sound into.new }
    {
        self.arrange_rows(from, into);
        self.arrange_roots(from, into);
    }

    // The rows.
    fn arrange_rows(&self, from: &Table, into: &mut Table)
        requires sound { Sound from.now }
        requires room { 272 ≤ vec_capacity into.old.rows }
        requires numbered { Numbered (graph from.now) self.now }
        ensures moved { (k : ℕ) → k < vec_len self.now.listed → Moved (graph from.now) self.now into.new k }
        ensures rows { vec_len into.new.rows ≡ vec_len self.now.listed }
        ensures room { 272 ≤ vec_capacity into.new.rows }
        ensures roots { into.new.roots ≡ into.old.roots }
    {
        into.rows.clear();
        for listed in &self.listed {
            let node = self.by_numbers(&from.rows[listed.row as usize]);
            into.rows.push_reserved(node);
        }
    }

    // The variables' rows.
    fn arrange_roots(&self, from: &Table, into: &mut Table)
        requires sound { Sound from.now }
        requires room { 64 ≤ vec_capacity into.old.roots }
        requires numbered { Numbered (graph from.now) self.now }
        ensures moved { (x : ℕ) → x < vec_len from.now.roots → (graph into.new).root x ≡ (in_numbers (graph from.now) self.now).root x }
        ensures roots { vec_len into.new.roots ≡ vec_len from.now.roots }
        ensures room { 64 ≤ vec_capacity into.new.roots }
        ensures rows { into.new.rows ≡ into.old.rows }
    {
        into.roots.clear();
        for root in &from.roots {
            into.roots.push_reserved(self.number[*root as usize]);
        }
    }

    // A node with its targets by their numbers.
    fn by_numbers(&self, node: &Node) -> Node
        requires { (a t : ℕ) → edge_of node.now a ≡ leads_to t → t < 272 }
        ensures value { result.value ≡ node.now.value }
        ensures edges { (a : ℕ) → edge_of result a ≡ map (num self.now) (edge_of node.now a) }
    {
        let mut moved = *node;
        moved.redirect(&self.number);
        moved
    }
}
