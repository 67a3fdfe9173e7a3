// Are the nodes of a table numbered breadth-first?
ghost use Rattle.std.specs.Prelude.{◌+◌, ◌<◌, ◌≤◌, MatchBool, MatchOption, vec_len};
ghost use Rattle.features.specs.Numbering.{BreadthFirst, by_attribute};
ghost use Rattle.tables.specs.Views.{graph, Sound};
ghost use Rattle.graphs.specs.Mentioned.{NumberedUpTo, WithMention};

use std::cmp::Ordering;
use tables::table::Table;

// How many nodes have their numbers once this one is mentioned: it has its number already, or it is the next.
fn with_mention(next: usize, node: u16) -> Option<usize>
    ensures { MatchOption result (next < node) (λ n. WithMention next node n) }
{
    match usize::from(node).cmp(&next) {
        Ordering::Less => Some(next),
        Ordering::Equal => Some(next + 1),
        Ordering::Greater => None,
    }
}

// How many nodes the variables mention, unless their numbers are not in the order of these mentions.
fn numbered_by_variables(table: &Table) -> Option<usize>
    requires { Sound table.now }
    ensures { MatchOption result (BreadthFirst (graph table.now) → ⊥) (λ next. NumberedUpTo (graph table.now) (by_attribute 0 0) next × (next ≤ vec_len table.now.rows)) }
{
    let mut next = 0;
    for root in &table.roots {
        next = with_mention(next, *root)?;
    }
    Some(next)
}

// How many nodes are mentioned once the attributes of this node are gone through.
fn numbered_by_attributes(table: &Table, node: usize, numbered: usize) -> Option<usize>
    requires sound { Sound table.now }
    requires inside { node < vec_len table.now.rows }
    requires before { node < numbered }
    requires most { numbered ≤ vec_len table.now.rows }
    requires so_far { NumberedUpTo (graph table.now) (by_attribute node 0) numbered }
    ensures { MatchOption result (BreadthFirst (graph table.now) → ⊥) (λ next. NumberedUpTo (graph table.now) (by_attribute (node + 1) 0) next × (next ≤ vec_len table.now.rows) × (numbered ≤ next)) }
{
    let mut next = numbered;
    for (_, target) in table.rows[node].edges() {
        next = with_mention(next, target)?;
    }
    Some(next)
}

// Are all nodes numbered in the order of their first mentions?
pub fn breadth_first(table: &Table) -> bool
    requires { Sound table.now }
    ensures { MatchBool result (BreadthFirst (graph table.now)) (BreadthFirst (graph table.now) → ⊥) }
{
    let Some(mut next) = numbered_by_variables(table) else {
        return false;
    };
    // Each number is itself what is compared, so the numbers are gone through and not the rows.
    for node in 0..table.rows.len() {
        if node >= next {
            return false;
        }
        match numbered_by_attributes(table, node, next) {
            Some(more) => next = more,
            None => return false,
        }
    }
    next == table.rows.len()
}
