// Why equations clash. Which terms denote, and which of them one node, does not depend on values. So the equations are stated once more without their
// values, which cannot clash, and the session is then asked which equations speak of the node at fault.
use crate::asking::Asking;
use crate::failure::Failure;
use crate::stating::Stating;
use crate::verdict::{Giving, Ground, Position};
use manuals::context::Context;
use manuals::equation::Equation;
use manuals::place::Place;
use std::alloc::Global;

// Why the node of a trail has no value after the given equations of a sentence, where more is known than that it has none.
pub fn explain(
    heap: Global,
    context: Context<'_>,
    said: &[Equation],
    trail: &Place,
) -> Result<Option<Ground>, Failure> {
    let shape = shape(heap, context.sentence.words.count(), said)?;
    let asking = shape.asking();
    let Some(first) = giving(&asking, said, trail, None)? else {
        return Ok(None);
    };
    if let Some(second) = giving(&asking, said, trail, Some(first.value))? {
        return Ok(Some(Ground::TwoValues(first, second)));
    }
    let branch = asking.first_branch(trail, context.attributes.count())?;
    Ok(branch.map(|branch| Ground::ValueAndAttribute(first, branch.attribute)))
}

// Equations over so many words, without their values.
fn shape(heap: Global, words: u16, said: &[Equation]) -> Result<Stating, Failure> {
    let mut stating = Stating::open(heap, words)?;
    for equation in said {
        stating.state_shape(equation)?;
    }
    Ok(stating)
}

// The first equation that gives the node of a trail a value, other than the given value.
fn giving(
    shape: &Asking,
    said: &[Equation],
    trail: &Place,
    but: Option<u16>,
) -> Result<Option<Giving>, Failure> {
    for (i, equation) in said.iter().enumerate() {
        if let Equation::Valued(place, value) = equation {
            if but != Some(*value) && shape.same(place, trail)? {
                return Ok(Some(Giving {
                    equation: Position(i),
                    value: *value,
                }));
            }
        }
    }
    Ok(None)
}
