// Equations and terms as a line writes them.
use crate::context::Context;
use crate::equation::Equation;
use crate::fault::Mistake;
use crate::names::Names;
use crate::place::Place;
use std::alloc::Global;

// One less than a session takes, so that it can be asked for each attribute of each node.
const LONGEST: usize = 7;

impl Context<'_> {
    pub(crate) fn read_equation(&self, heap: Global, text: &str) -> Result<Equation, Mistake> {
        if let Some((left, right)) = text.split_once('=') {
            let left = self.read_place(heap, left)?;
            let right = self.read_place(heap, right)?;
            return Ok(Equation::Equal(left, right));
        }
        let (left, value) = text.split_once(" is ").ok_or(Mistake::NoEquation)?;
        let place = self.read_place(heap, left)?;
        let value = known(heap, self.values, value.trim(), Mistake::UnknownValue)?;
        Ok(Equation::Valued(place, value))
    }

    // A term: a word of the sentence, and then attributes.
    fn read_place(&self, heap: Global, text: &str) -> Result<Place, Mistake> {
        let text = text.trim();
        let (name, names) = text.split_once(' ').unwrap_or((text, ""));
        if name.is_empty() {
            return Err(Mistake::NoTerm);
        }
        let word = known(heap, &self.sentence.words, name, Mistake::UnknownWord)?;
        let path: Vec<u16> = names
            .split_whitespace()
            .map(|name| known(heap, self.attributes, name, Mistake::UnknownAttribute))
            .try_collect(heap)?;
        if path.len() > LONGEST {
            return Err(Mistake::LongTerm);
        }
        Ok(Place { word, path })
    }
}

// The number of a name, or else the mistake that it is none of these.
fn known<M: FnOnce(String) -> Mistake>(
    heap: Global,
    names: &Names,
    name: &str,
    mistake: M,
) -> Result<u16, Mistake>
    requires { M.IsAlwaysCallable mistake }
{
    match names.find(name) {
        Some(number) => Ok(number),
        None => Err(mistake(String::from_str(heap, name)?)),
    }
}
