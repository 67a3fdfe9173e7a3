// Terms and equations in names.
ghost use Rattle.std.specs.Prelude.{◌≡◌};

use crate::context::Context;
use crate::equation::Equation;
use crate::place::Place;
use std::fmt;

// Something that a sentence says, in the notation.
#[derive(Drop)]
pub struct Worded<'a, T> {
    pub context: Context<'a>,
    pub said: &'a T,
}

impl<'a> Context<'a> {
    // Something that the sentence says, beside the names to print it by.
    pub fn worded<T>(self, said: &'a T) -> Worded<'a, T>
        ensures context { result.context ≡ self.entry }
        ensures said { result.said.now ≡ said.now }
    {
        Worded {
            context: self,
            said,
        }
    }
}

impl fmt::Display for Worded<'_, Place> {
    fn fmt<W: fmt::Write>(&self, f: &mut fmt::Formatter<W>) -> fmt::Result {
        let word = self.context.sentence.words.name(self.said.word);
        write!(f, "{word}")?;
        for attribute in self.said.path.iter() {
            let name = self.context.attributes.name(*attribute);
            write!(f, " {name}")?;
        }
        Ok(())
    }
}

impl fmt::Display for Worded<'_, Equation> {
    fn fmt<W: fmt::Write>(&self, f: &mut fmt::Formatter<W>) -> fmt::Result {
        let context = self.context;
        match self.said {
            Equation::Equal(left, right) => {
                let left = context.worded(left);
                let right = context.worded(right);
                write!(f, "{left} = {right}")
            }
            Equation::Valued(place, value) => {
                let place = context.worded(place);
                let value = context.values.name(*value);
                write!(f, "{place} is {value}")
            }
        }
    }
}
