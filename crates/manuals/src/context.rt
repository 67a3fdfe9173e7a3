// A sentence beside the names that it shares with the others of its manual.
ghost use Rattle.std.specs.Prelude.{◌≡◌};

use crate::manual::{Manual, Sentence};
use crate::names::Names;

// What the equations of a sentence are read and written by.
#[derive(Clone, Copy)]
pub struct Context<'a> {
    pub attributes: &'a Names,
    pub values: &'a Names,
    pub sentence: &'a Sentence,
}

impl Manual {
    // The names of this manual beside a sentence.
    pub fn context<'a>(&'a self, sentence: &'a Sentence) -> Context<'a>
        ensures attributes { result.attributes.now ≡ self.now.attributes }
        ensures values { result.values.now ≡ self.now.values }
        ensures sentence { result.sentence.now ≡ sentence.now }
    {
        Context {
            attributes: &self.attributes,
            values: &self.values,
            sentence,
        }
    }
}
