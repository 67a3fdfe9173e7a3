// What comes of a sentence.
use crate::clashing::explain;
use crate::failure::Failure;
use crate::outline::Outline;
use crate::stating::Stating;
use manuals::context::Context;
use manuals::place::Place;
use std::alloc::Global;
use std::fmt;

// A clash is a finding, and no failure to find out; so this is no `Result`, whose error would be one.
#[derive(Drop)]
pub enum Verdict {
    // all equations hold of this graph
    Agrees(Outline),
    Clashes(Clash),
}

// A clash: the equation that was refused, the first node at fault, and why no value is right for it, where that is known.
#[derive(Drop)]
pub struct Clash {
    pub equation: Position,
    pub trail: Place,
    pub ground: Option<Ground>,
}

#[derive(Clone, Copy)]
pub enum Ground {
    // two equations give the node two values
    TwoValues(Giving, Giving),
    // an equation gives a value to a node that has this attribute
    ValueAndAttribute(Giving, u16),
}

// An equation and the value that it gives.
#[derive(Clone, Copy)]
pub struct Giving {
    pub equation: Position,
    pub value: u16,
}

// The place of an equation in its sentence. It is printed counted from 1.
#[derive(Clone, Copy)]
pub struct Position(pub usize);

impl fmt::Display for Position {
    fn fmt<W: fmt::Write>(&self, f: &mut fmt::Formatter<W>) -> fmt::Result {
        self.0.saturating_add(1).fmt(f)
    }
}

impl Verdict {
    // States the equations of a sentence in their order, up to the first that clashes.
    pub fn of(heap: Global, context: Context<'_>) -> Result<Verdict, Failure> {
        let equations = context.sentence.equations.as_slice();
        let mut stating = Stating::open(heap, context.sentence.words.count())?;
        for (i, equation) in equations.iter().enumerate() {
            if let Err(refusal) = stating.state(equation) {
                let trail = stating.trail(refusal)?;
                let ground = explain(heap, context, &equations[..=i], &trail)?;
                return Ok(Verdict::Clashes(Clash {
                    equation: Position(i),
                    trail,
                    ground,
                }));
            }
        }
        let session = stating.asking().session;
        let words = context.sentence.words.count();
        let attributes = context.attributes.count();
        Ok(Verdict::Agrees(Outline::of(heap, session, words, attributes)?))
    }
}
