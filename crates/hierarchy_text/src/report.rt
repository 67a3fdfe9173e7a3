// An accepted hierarchy, in words.
use crate::entry::Entry;
use crate::sheet::Sheet;
use kinds::kind::Kind;
use kinds::types::Types;
use std::fmt;

// The widest table that is printed as one.
const WIDEST: usize = 100;

// What is said of a hierarchy: its types, and then its meets.
#[derive(Drop)]
pub struct Report<'a> {
    pub sheet: &'a Sheet,
    pub types: &'a Types,
}

impl fmt::Display for Report<'_> {
    fn fmt<W: fmt::Write>(&self, f: &mut fmt::Formatter<W>) -> fmt::Result {
        let entries = self.sheet.entries.list.as_slice();
        let count = entries.len();
        let columns = Columns {
            report: self,
            entries,
            width: longest(entries),
        };
        writeln!(f, "Accepted. Types: {count}.\n")?;
        columns.write_entries(f)?;
        if (columns.width.saturating_add(2)).saturating_mul(count.saturating_add(1)) <= WIDEST {
            columns.write_table(f)
        } else {
            columns.write_list(f)
        }
    }
}

// The length of the longest name.
fn longest(entries: &[Entry]) -> usize {
    entries
        .iter()
        .map(|entry| entry.name.len())
        .max()
        .unwrap_or(0)
}

// A report in columns as wide as the longest name.
#[derive(Drop)]
struct Columns<'a> {
    report: &'a Report<'a>,
    entries: &'a [Entry],
    width: usize,
}

impl Columns<'_> {
    // Each type with its supertypes and its mark, in the notation.
    fn write_entries<W: fmt::Write>(&self, f: &mut fmt::Formatter<W>) -> fmt::Result {
        for entry in self.entries {
            self.write_entry(f, entry)?;
        }
        Ok(())
    }

    fn write_entry<W: fmt::Write>(&self, f: &mut fmt::Formatter<W>, entry: &Entry) -> fmt::Result {
        let name = entry.name.as_str();
        if entry.supertypes.is_empty() {
            return writeln!(f, "  {name}");
        }
        let width = self.width;
        write!(f, "  {name:width$} :")?;
        for supertype in &entry.supertypes {
            write!(f, " {supertype}")?;
        }
        writeln!(f, "{}", if entry.leaf { " !" } else { "" })
    }

    // A row and a column for each type.
    fn write_table<W: fmt::Write>(&self, f: &mut fmt::Formatter<W>) -> fmt::Result {
        writeln!(f, "\nMeets (`-`: none):\n")?;
        self.write_cell(f, "")?;
        for entry in self.entries {
            self.write_cell(f, entry.name.as_str())?;
        }
        writeln!(f, "")?;
        for (a, entry) in self.entries.iter().enumerate() {
            self.write_row(f, a as u64, entry)?;
        }
        Ok(())
    }

    // The meets of a type with each.
    fn write_row<W: fmt::Write>(
        &self,
        f: &mut fmt::Formatter<W>,
        a: u64,
        entry: &Entry,
    ) -> fmt::Result {
        self.write_cell(f, entry.name.as_str())?;
        for b in 0..self.entries.len() as u64 {
            let meet = self.report.types.meet(a, b);
            self.write_cell(f, meet.map_or("-", |c| self.report.sheet.name(c)))?;
        }
        writeln!(f, "")
    }

    fn write_cell<W: fmt::Write>(&self, f: &mut fmt::Formatter<W>, name: &str) -> fmt::Result {
        let width = self.width;
        write!(f, "  {name:>width$}")
    }

    // A line for each two types that have a meet other than themselves.
    fn write_list<W: fmt::Write>(&self, f: &mut fmt::Formatter<W>) -> fmt::Result {
        writeln!(
            f,
            "\nMeets of types of which neither is at or below the other (a pair that is not listed has none):\n"
        )?;
        for (a, entry) in self.entries.iter().enumerate() {
            self.write_meets_of(f, a, entry)?;
        }
        Ok(())
    }

    fn write_meets_of<W: fmt::Write>(
        &self,
        f: &mut fmt::Formatter<W>,
        a: usize,
        entry: &Entry,
    ) -> fmt::Result {
        let width = self.width;
        let first = entry.name.as_str();
        for (b, entry) in self.entries.iter().enumerate().skip(a) {
            let (a, b) = (a as u64, b as u64);
            if let Some(c) = self.report.types.meet(a, b).filter(|c| *c != a && *c != b) {
                let second = entry.name.as_str();
                let meet = self.report.sheet.name(c);
                writeln!(f, "  {first:width$} & {second:width$} = {meet}")?;
            }
        }
        Ok(())
    }
}
