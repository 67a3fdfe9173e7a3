// Why a hierarchy is refused, in words.
use crate::judging::Objection;
use crate::sheet::Sheet;
use kinds::types::has_bit;
use std::fmt;

#[derive(Drop)]
pub struct Refusal<'a> {
    pub sheet: &'a Sheet,
    pub objection: Objection,
}

impl fmt::Display for Refusal<'_> {
    fn fmt<W: fmt::Write>(&self, f: &mut fmt::Formatter<W>) -> fmt::Result {
        match self.objection {
            Objection::NoGreatest(a, b) => self.write_parted(f, a, b),
            Objection::WrongMark(0) => {
                let name = self.sheet.name(0);
                write!(f, "Refused: `{name}` is the top, which cannot be a leaf.")
            }
            Objection::WrongMark(t) => self.write_unmarked(f, t),
        }
    }
}

impl Refusal<'_> {
    // Names two types that have no meet, and their common subtypes.
    fn write_parted<W: fmt::Write>(
        &self,
        f: &mut fmt::Formatter<W>,
        a: u16,
        b: u16,
    ) -> fmt::Result {
        let first = self.sheet.name(a as u64);
        let second = self.sheet.name(b as u64);
        write!(
            f,
            "Refused: `{first}` and `{second}` have common subtypes and no greatest of them:"
        )?;
        for (t, entry) in self.sheet.entries.list.iter().enumerate() {
            let above = self.sheet.at_or_above(t as u16);
            if has_bit(above, a as u64) && has_bit(above, b as u64) {
                write!(f, " `{}`", entry.name)?;
            }
        }
        write!(f, ".")
    }

    // Names a type without a mark, and the first marked type that it is below.
    fn write_unmarked<W: fmt::Write>(&self, f: &mut fmt::Formatter<W>, t: u16) -> fmt::Result {
        let leaves = self.sheet.at_or_above(t) & self.sheet.marks;
        let name = self.sheet.name(t as u64);
        let leaf = self.sheet.name(leaves.trailing_zeros() as u64);
        write!(
            f,
            "Refused: `{name}` is below the leaf `{leaf}`, and has no mark of its own."
        )
    }
}
