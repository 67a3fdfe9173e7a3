// Questions about the terms of a sentence, put to a session.
ghost use Rattle.std.specs.Prelude.{◌≡◌, ◌+◌, IfSome};
ghost use Rattle.kinds.specs.Atoms.{atoms};
ghost use Rattle.answers.specs.Answers.{ask_same, says};
ghost use Rattle.answers.specs.Runs.{Step, asked};
ghost use Rattle.session.specs.Sessions.{graph, kept};
ghost use Rattle.sentences.specs.Statements.{term_of};

use crate::failure::Failure;
use crate::stating::term;
use answers::refusal::Refusal;
use kinds::atoms::Atoms;
use manuals::place::Place;
use session::session::Session;
use std::alloc::Global;

// A session that is asked, and stays as it is.
#[derive(Clone, Copy)]
pub struct Asking<'a> {
    pub heap: Global,
    pub session: &'a Session<Atoms>,
}

// A term that is one attribute longer than that of a node, and the attribute.
#[derive(Drop)]
pub struct Branch {
    pub attribute: u16,
    pub place: Place,
}

impl Asking<'_> {
    // Do both terms denote one node?
    pub fn same(&self, left: &Place, right: &Place) -> Result<bool, Refusal>
        ensures { Step graph kept atoms self.now.session.now (asked (ask_same (term_of left.now) (term_of right.now)) (says result)) self.now.session.now }
    {
        self.session.same(term(left), term(right))
    }

    // The number of the value that the node of a term has, where it has one.
    pub fn value(&self, place: &Place) -> Result<Option<u16>, Refusal> {
        let atom = self.session.value(term(place))?;
        Ok(atom.and_then(value_of))
    }

    // The attributes below the given count that the node of a term has, each with its term. The question can fail, so no `find` or `filter`.
    pub fn branches(&self, place: &Place, attributes: u16) -> Result<Vec<Branch>, Failure> {
        let mut branches = Vec::new(self.heap);
        for attribute in 0..attributes {
            if let Some(branch) = self.branch(place, attribute)? {
                branches.push(branch)?;
            }
        }
        Ok(branches)
    }

    // The first of them.
    pub fn first_branch(&self, place: &Place, attributes: u16) -> Result<Option<Branch>, Failure> {
        for attribute in 0..attributes {
            if let Some(branch) = self.branch(place, attribute)? {
                return Ok(Some(branch));
            }
        }
        Ok(None)
    }

    fn branch(&self, place: &Place, attribute: u16) -> Result<Option<Branch>, Failure> {
        let place = place.extended(attribute)?;
        let value = self.session.value(term(&place))?;
        Ok(value.map(|_| Branch { attribute, place }))
    }
}

// The number of the value that an atom stands for, and none for the top.
fn value_of(atom: u64) -> Option<u16>
    ensures { IfSome result (λ value. atom ≡ value + 1) }
{
    u16::try_from(atom.checked_sub(1)?).ok()
}
