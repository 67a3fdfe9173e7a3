// Every target becomes its representative.
ghost use Rattle.std.specs.Prelude.{◌≡◌, ℕ, ◌<◌, length, slice_index, vec_len};
ghost use Rattle.std.proofs.Math.Option.{map as mapped, some as leads_to};
ghost use Rattle.tables.specs.Views.{edge_of, row as row_of};
ghost use Rattle.joining.specs.Workspaces.{rep, Resolved};

use crate::workspace::Workspace;
use tables::node::Node;

// The targets of all rows.
pub fn resolve_rows(class: &[u16], rows: &mut [Node])
    requires { (n a k : ℕ) → n < length rows.old → edge_of (row_of rows.old n) a ≡ leads_to k → k < length class.now }
    ensures values { (n : ℕ) → (row_of rows.new n).value ≡ (row_of rows.old n).value }
    ensures edges { (n a : ℕ) → n < length rows.old → edge_of (row_of rows.new n) a ≡ mapped (λ x. slice_index class.now x) (edge_of (row_of rows.old n) a) }
{
    for row in rows.iter_mut() {
        row.redirect(class);
    }
}

// The rows of the variables.
pub fn resolve_roots(class: &[u16], roots: &mut [u16])
    requires { (x : ℕ) → x < length roots.old → slice_index roots.old x < length class.now }
    ensures { (x : ℕ) → x < length roots.old → slice_index roots.new x ≡ slice_index class.now (slice_index roots.old x) }
{
    for root in roots.iter_mut() {
        *root = class[*root as usize];
    }
}

impl Workspace {
    // Every attribute and every variable leads to a representative from now on.
    pub fn resolve(&mut self)
        requires { (x : ℕ) → x < vec_len self.old.table.rows → rep self.old x < vec_len self.old.table.rows }
        ensures { Resolved self.old self.new }
    {
        resolve_rows(&self.class, &mut self.table.rows);
        resolve_roots(&self.class, &mut self.table.roots);
    }
}
