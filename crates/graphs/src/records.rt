// The records of a listing, one for each node.
ghost use Rattle.std.specs.Prelude.{◌≡◌, ◌≤◌, take, drop, MatchResult, vec_len, vec_capacity};
ghost use Rattle.graphs.specs.Listings.{node_count, table_place, start, record_length};
ghost use Rattle.graphs.specs.Reading.{Right, RightBelow, Reached, Ground};
ghost use Rattle.graphs.specs.Rows.{RowsOf};

use crate::fields::number_at;
use crate::listing::Listing;
use crate::misread::Misread;
use crate::record::Record;
use kinds::kind::Kind;
use tables::node::Node;

impl<'a, K: Kind> Listing<'a, K> {
    // The next record, where all that is asked of it holds; `rest` is what is not yet read of the records.
    fn read_record(&self, node: usize, rest: &'a [u8]) -> Result<Record<'a>, Misread>
        requires next { Reached (K.meaning self.now.kind.now) self.now.bytes.now node }
        requires begins { start self.now.bytes.now node ≤ self.now.trailer.place }
        requires rest { rest.now ≡ drop (start self.now.bytes.now node) (take self.now.trailer.place self.now.bytes.now) }
        ensures { MatchResult result (λ r. Right (K.meaning self.now.kind.now) self.now.bytes.now node × (r.bytes.now ≡ take (record_length self.now.bytes.now (start self.now.bytes.now node)) (drop (start self.now.bytes.now node) self.now.bytes.now))) (λ e. Ground (K.meaning self.now.kind.now) self.now.bytes.now e) }
    {
        let name = node as u16;
        let Some(record) = Record::first(rest) else {
            return Err(Misread::RecordPasses(name));
        };
        let value = number_at::<8>(record.bytes, 0);
        if !self.kind.is_value(value) {
            return Err(Misread::NoValue(name));
        }
        if !record.attributes_rise() {
            return Err(Misread::Attributes(name));
        }
        if !record.targets_inside(self.trailer.nodes) {
            return Err(Misread::TargetOutside(name));
        }
        let branches = record.bytes[8] > 0;
        if branches && self.kind.is_leaf(value) {
            return Err(Misread::LeafBranches(name));
        }
        Ok(record)
    }

    // The rows of all records, where these end at the place of the variables' nodes.
    pub fn read_records(&self, rows: &mut Vec<Node>) -> Result<(), Misread>
        requires room { 256 ≤ vec_capacity rows.old }
        ensures cases { MatchResult result (λ _. (vec_len rows.new ≡ node_count self.now.bytes.now) × RightBelow (K.meaning self.now.kind.now) self.now.bytes.now (node_count self.now.bytes.now) × (start self.now.bytes.now (node_count self.now.bytes.now) ≡ table_place self.now.bytes.now) × RowsOf (K.meaning self.now.kind.now) self.now.bytes.now rows.new.items (node_count self.now.bytes.now)) (λ e. Ground (K.meaning self.now.kind.now) self.now.bytes.now e) }
        ensures room { vec_capacity rows.new ≡ vec_capacity rows.old }
    {
        rows.clear();
        let mut rest = &self.bytes[..self.trailer.place];
        // A record's length stands in the record, so the nodes are counted and what is left of the bytes is kept.
        for node in 0..self.trailer.nodes {
            let record = self.read_record(node, rest)?;
            rows.push_reserved(record.row());
            rest = &rest[record.bytes.len()..];
        }
        if !rest.is_empty() {
            return Err(Misread::RecordsEnd(self.trailer.nodes as u16));
        }
        Ok(())
    }
}
