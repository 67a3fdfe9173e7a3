// The equations of a sentence, told to a session.
ghost use Rattle.std.specs.Prelude.{◌≡◌, ◌+◌};
ghost use Rattle.features.specs.Terms.{equals};
ghost use Rattle.sentences.specs.Statements.{term_of, statement_of, shape_of, Told};

use crate::asking::Asking;
use crate::failure::Failure;
use answers::refusal::Refusal;
use kinds::atoms::Atoms;
use manuals::equation::Equation;
use manuals::place::Place;
use session::parts::Term;
use session::session::Session;
use std::alloc::Global;

// As many entries as a trail buffer has to have.
const TRAIL: usize = 272;

// The bytes of the longest listing.
const LONGEST: usize = 27_016;

// A session that is told equations over declared words.
#[derive(Drop)]
pub struct Stating {
    pub heap: Global,
    session: Session<Atoms>,
    // where the session writes the trail of a node at fault
    trail: [u16; TRAIL],
}

impl Stating {
    // So many words are declared, and nothing is said.
    pub fn open(heap: Global, words: u16) -> Result<Stating, Failure> {
        let mut session = Session::open(heap, Atoms)?;
        for _ in 0..words {
            session.declare()?;
        }
        Ok(Stating {
            heap,
            session,
            trail: [0; TRAIL],
        })
    }

    // States an equation.
    pub fn state(&mut self, equation: &Equation) -> Result<(), Refusal>
        ensures { Told self.old (statement_of equation.now) result self.new }
    {
        match equation {
            Equation::Equal(left, right) => self.equate(left, right),
            Equation::Valued(place, value) => {
                let value = atom(*value);
                self.session.is(term(place), value, &mut self.trail)
            }
        }
    }

    // States of an equation only which nodes there are and which are one, and no value.
    pub fn state_shape(&mut self, equation: &Equation) -> Result<(), Refusal>
        ensures { Told self.old (shape_of equation.now) result self.new }
    {
        match equation {
            Equation::Equal(left, right) => self.equate(left, right),
            Equation::Valued(place, _) => self.equate(place, place),
        }
    }

    fn equate(&mut self, left: &Place, right: &Place) -> Result<(), Refusal>
        ensures { Told self.old (equals (term_of left.now) (term_of right.now)) result self.new }
    {
        self.session
            .equals(term(left), term(right), &mut self.trail)
    }

    // The trail of the node that the last refusal names, if it is a clash; other refusals are failures.
    pub fn trail(&self, refusal: Refusal) -> Result<Place, Failure> {
        let (Refusal::ValueClash(word, count) | Refusal::LeafClash(word, count)) = refusal else {
            return Err(Failure::Session(refusal));
        };
        let path = self
            .trail
            .iter()
            .take(usize::from(count))
            .copied()
            .collect(self.heap)?;
        Ok(Place { word, path })
    }

    // The questions that the session answers.
    pub fn asking(&self) -> Asking<'_>
        ensures { result.session.now ≡ self.now.session }
    {
        Asking {
            heap: self.heap,
            session: &self.session,
        }
    }

    // The graph as its listing.
    pub fn listing(&mut self) -> Result<Vec<u8>, Failure> {
        let mut bytes = vec![in self.heap; 0u8; LONGEST]?;
        let used = self.session.list(bytes.as_mut_slice())?;
        bytes.truncate(used);
        Ok(bytes)
    }
}

// No `From` can say this, as both types are of other crates.
pub fn term(place: &Place) -> Term<'_>
    ensures var { result.var ≡ place.now.word }
    ensures path { result.path.now ≡ place.now.path.items }
{
    Term {
        var: place.word,
        path: place.path.as_slice(),
    }
}

// The atom of a value's number: 0 is the top, so atoms begin with 1.
fn atom(value: u16) -> u64
    ensures { result ≡ value + 1 }
{
    u64::from(value) + 1
}
