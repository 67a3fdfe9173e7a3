// What is wrong with a term before any graph is looked at.
ghost use Rattle.std.specs.Prelude.{◌≡◌, nat_lt, position, vec_len};
ghost use Rattle.answers.specs.Answers.{term_fault, pair_fault};
ghost use Rattle.session.specs.Checks.{Reports};
ghost use Rattle.terms.specs.Terms.{term_of};

use crate::parts::{LONGEST, Term};
use answers::refusal::{Refusal, Side};
use tables::table::Table;

// The last attribute that there is.
const LAST: u16 = 31;

// The first attribute past the last that there is, by its position.
fn first_above(path: &[u16]) -> Option<usize>
    ensures { result ≡ position (nat_lt 31) path.now }
{
    path.iter().position(|a| *a > LAST)
}

// A term is of a variable that the table has, short and of attributes that there are; or the first of these that fails.
#[tactic(auto, using(crate::proofs::Faults::above_found, crate::proofs::Faults::above_none))]
pub fn check(term: Term<'_>, table: &Table, side: Side) -> Result<(), Refusal>
    ensures { Reports (term_fault (vec_len table.now.roots) side (term_of term.entry)) result }
{
    if usize::from(term.var) >= table.roots.len() {
        return Err(Refusal::Undeclared(side));
    }
    if term.path.len() > LONGEST {
        return Err(Refusal::LongTerm(side));
    }
    match first_above(term.path) {
        Some(i) => Err(Refusal::NoAttribute(side, i as u16)),
        None => Ok(()),
    }
}

// The left term before the right one.
pub fn check_pair(left: Term<'_>, right: Term<'_>, table: &Table) -> Result<(), Refusal>
    ensures { Reports (pair_fault (vec_len table.now.roots) (term_of left.entry) (term_of right.entry)) result }
{
    check(left, table, Side::Left)?;
    check(right, table, Side::Right)
}
