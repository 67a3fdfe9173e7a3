// Marked cases: a table of calls and of the answers that are laid down for them, proved as one statement.
#![tactic(auto)]

ghost use Rattle.cases.specs.Table.{MarkedCases};

pub fn marked_cases()
    ensures { MarkedCases }
{}
