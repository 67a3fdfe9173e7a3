// A row takes over the attributes of another. These are functions of a table and no methods of a workspace: so no clause need say that
// classes and voids stay as they are.
ghost use Rattle.std.specs.Prelude.{◌≡◌, ◌+◌, ◌<◌, ◌≤◌, length, vec_len};
ghost use Rattle.queue.specs.Waiting.{waiting, capacity};
ghost use Rattle.tables.specs.Views.{graph};
ghost use Rattle.joining.specs.Uniting.{Takes, TakesOne};
ghost use Rattle.joining.specs.Workspaces.{Edged, Waits};

use crate::workspace::Pair;
use queue::Queue;
use tables::table::Table;

// One attribute comes to `to`: where `to` has it, its target and the one that comes wait to be joined, else `to` leads to the one that comes.
pub fn take_attribute(
    table: &mut Table,
    queue: &mut Queue<Pair>,
    to: u16,
    attribute: u16,
    target: u16,
)
    requires to { to < vec_len table.old.rows }
    requires small { attribute < 32 }
    requires room { length (waiting queue.old) < capacity queue.old }
    ensures edged { Edged table.old table.new }
    ensures takes { TakesOne (graph table.old).edge (waiting queue.old) to attribute target (graph table.new).edge (waiting queue.new) }
    ensures room { capacity queue.new ≡ capacity queue.old }
{
    match table.rows[to as usize].target(attribute) {
        Some(kept) => {
            queue.push(Pair {
                left: kept,
                right: target,
            });
        }
        None => table.rows[to as usize].lead(attribute, target),
    }
}

// All attributes of `from`, the lowest first.
pub fn take_attributes(table: &mut Table, queue: &mut Queue<Pair>, to: u16, from: u16)
    requires to { to < vec_len table.old.rows }
    requires from { from < vec_len table.old.rows }
    requires room { length (waiting queue.old) + 32 ≤ capacity queue.old }
    ensures edged { Edged table.old table.new }
    ensures takes { Takes (graph table.old).edge (Waits (waiting queue.old)) to from (graph table.new).edge (Waits (waiting queue.new)) }
    ensures longer { length (waiting queue.new) ≤ length (waiting queue.old) + 32 }
    ensures room { capacity queue.new ≡ capacity queue.old }
{
    let node = table.rows[from as usize];
    for (attribute, target) in node.edges() {
        take_attribute(table, queue, to, attribute, target);
    }
}
