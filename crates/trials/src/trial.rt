// A session with a trail of its own, and rows of calls to it.
use answers::refusal::Refusal;
use kinds::kind::Kind;
use session::parts::Term;
use session::session::Session;
use std::alloc::{AllocError, Global};
use std::process::Abort;
use std::test::*;

// What no attribute is, to see what of a trail is written.
pub const UNWRITTEN: u16 = 99;

#[derive(Clone, Copy)]
pub enum Call<'a> {
    Declare,
    Equals(Term<'a>, Term<'a>),
    Is(Term<'a>, u64),
    Apart(Term<'a>, Term<'a>),
    Same(Term<'a>, Term<'a>),
    Value(Term<'a>),
}

#[derive(Clone, Copy, PartialEq, Eq, Debug)]
pub enum Answer {
    Accepted,
    Variable(u16),
    Truth(bool),
    Found(Option<u64>),
    Refused(Refusal),
}

// The term of a variable and attributes.
pub fn at(var: u16, path: &[u16]) -> Term<'_> {
    Term { var, path }
}

#[derive(Drop)]
pub struct Trial<K: Kind> {
    pub session: Session<K>,
    pub trail: [u16; 272],
}

impl<K: Kind + Drop> Trial<K> {
    pub fn open(heap: Global, kind: K) -> Result<Trial<K>, AllocError> {
        let session = Session::open(heap, kind)?;
        Ok(Trial {
            session,
            trail: [UNWRITTEN; 272],
        })
    }
}

impl<K: Kind> Trial<K> {
    fn state(&mut self, call: Call<'_>) -> Result<Answer, Refusal> {
        match call {
            Call::Declare => return Ok(Answer::Variable(self.session.declare()?)),
            Call::Equals(p, q) => self.session.equals(p, q, &mut self.trail)?,
            Call::Is(p, value) => self.session.is(p, value, &mut self.trail)?,
            Call::Apart(p, q) => self.session.apart(p, q, &mut self.trail)?,
            Call::Same(p, q) => return Ok(Answer::Truth(self.session.same(p, q)?)),
            Call::Value(p) => return Ok(Answer::Found(self.session.value(p)?)),
        }
        Ok(Answer::Accepted)
    }

    // What the session answers.
    pub fn ask(&mut self, call: Call<'_>) -> Answer {
        match self.state(call) {
            Ok(answer) => answer,
            Err(refusal) => Answer::Refused(refusal),
        }
    }

    // Every call is answered as its row says.
    pub fn run(&mut self, rt: &impl Abort, rows: &[(Call<'_>, Answer)]) -> Result<(), Fail> {
        for (i, (call, answer)) in rows.iter().enumerate() {
            assert_eq!(rt; self.ask(*call), *answer, "row {i}");
        }
        Ok(())
    }
}

// Runs the rows in a new session, and gives the trail.
pub fn run<K: Kind + Drop>(
    rt: &impl Abort,
    heap: Global,
    kind: K,
    rows: &[(Call<'_>, Answer)],
) -> Result<[u16; 272], Fail> {
    let mut trial = Trial::open(heap, kind)?;
    trial.run(rt, rows)?;
    Ok(trial.trail)
}
