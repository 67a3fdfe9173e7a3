// The variables' nodes of a listing.
ghost use Rattle.std.specs.Prelude.{◌≡◌, ◌≤◌, MatchResult, vec_len, vec_capacity};
ghost use Rattle.kinds.specs.Meaning.{Meaning};
ghost use Rattle.graphs.specs.Listings.{node_count, variable_count, table_place, start};
ghost use Rattle.graphs.specs.Reading.{RightBelow, Ground};
ghost use Rattle.graphs.specs.Rows.{RootsOf};

use crate::fields::number_at;
use crate::listing::Listing;
use crate::misread::Misread;
use crate::trailer::Trailer;

impl<K> Listing<'_, K> {
    // The node of each variable, where there is such a node.
    pub fn read_roots(&self, roots: &mut Vec<u16>) -> Result<(), Misread>
        requires room { 64 ≤ vec_capacity roots.old }
        ensures cases { MatchResult result (λ _. (vec_len roots.new ≡ variable_count self.now.bytes.now) × RootsOf self.now.bytes.now roots.new.items (variable_count self.now.bytes.now)) (λ e. (m : Meaning) → RightBelow m self.now.bytes.now (node_count self.now.bytes.now) → start self.now.bytes.now (node_count self.now.bytes.now) ≡ table_place self.now.bytes.now → Ground m self.now.bytes.now e) }
        ensures room { vec_capacity roots.new ≡ vec_capacity roots.old }
    {
        let Trailer {
            nodes,
            variables,
            place,
        } = self.trailer;
        roots.clear();
        let fields = self.bytes[place..place + 2 * variables].chunks_exact(2);
        for (variable, field) in fields.enumerate() {
            let root = number_at::<2>(field, 0) as u16;
            if usize::from(root) >= nodes {
                return Err(Misread::VariableOutside(variable as u16));
            }
            roots.push_reserved(root);
        }
        Ok(())
    }
}
