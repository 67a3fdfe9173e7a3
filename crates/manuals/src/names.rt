// Names by their numbers.
ghost use Rattle.std.specs.Prelude.{◌≡◌, ◌<◌, ◌≤◌, [], ◌∷◌, ◌++◌, vec_len, string_bytes, OnOk, OnErr, IfErr};
ghost use Rattle.std.specs.List.{HoldsAt};
ghost use Rattle.std.specs.Slice.Iter.{iter_rest};
ghost use Rattle.texts.specs.Named.{FirstNamed, NoneNamed};
ghost use Rattle.manuals.specs.Names.{spelled, Refuses, AddsWords, AddsSome};

use crate::fault::Mistake;
use std::alloc::Global;
use std::slice::Iter;
use texts::named::{name_at, position_of};

// Names, numbered from 0 in the order in which they came, and at most so many.
#[derive(Drop)]
pub struct Names {
    // few, and looked up by number too, so searched from the front
    words: Vec<String>,
    most: u16,
    ghost few: { vec_len words ≤ 65535 },
    ghost within: { vec_len words ≤ most },
}

impl Names {
    pub fn new(heap: Global, most: u16) -> Names
        ensures { (vec_len result.words ≡ 0) × (result.most ≡ most) }
    {
        Names {
            words: Vec::new(heap),
            most,
        }
    }

    pub fn count(&self) -> u16
        ensures { result ≡ vec_len self.now.words }
    {
        self.words.len() as u16
    }

    // The number of the first name that is spelled so.
    pub fn find(&self, name: &str) -> Option<u16>
        ensures { FirstNamed string_bytes self.now.words.items name.now result }
    {
        position_of(self.words.as_slice(), name).map(|number| number as u16)
    }

    // The name of a number, and a question mark for a number that has none.
    pub fn name(&self, number: u16) -> &str
        ensures named { number < vec_len self.now.words → HoldsAt (λ word. string_bytes word ≡ result.now) self.now.words.items number }
        ensures unnamed { vec_len self.now.words ≤ number → result.now ≡ 63 ∷ [] }
    {
        name_at(self.words.as_slice(), usize::from(number))
    }

    // The words in their order.
    pub fn iter(&self) -> Iter<'_, String>
        ensures { iter_rest result ≡ self.now.words.items }
    {
        self.words.as_slice().iter()
    }

    // Adds the names of a line, which are all to be new.
    pub fn add_all(&mut self, heap: Global, text: &str) -> Result<(), Mistake>
        ensures ok { OnOk result (AddsWords text.now (spelled self.old.words.items) (spelled self.new.words.items)) }
        ensures err { OnErr result (AddsSome (spelled self.old.words.items) (spelled self.new.words.items)) }
        ensures most { self.new.most ≡ self.old.most }
    {
        for word in text.split_whitespace() {
            self.add(heap, word)?;
        }
        Ok(())
    }

    fn add(&mut self, heap: Global, word: &str) -> Result<(), Mistake>
        ensures ok { OnOk result (spelled self.new.words.items ≡ spelled self.old.words.items ++ word.now ∷ []) }
        ensures new { OnOk result (NoneNamed string_bytes self.old.words.items word.now (vec_len self.old.words)) }
        ensures room { OnOk result (vec_len self.old.words < self.old.most) }
        ensures err { OnErr result (self.new.words.items ≡ self.old.words.items) }
        ensures ground { IfErr result (Refuses self.old.words.items self.old.most word.now) }
        ensures most { self.new.most ≡ self.old.most }
    {
        let name = String::from_str(heap, word)?;
        match self.find(word) {
            Some(_) => Err(Mistake::Repeated(name)),
            None if self.words.len() >= usize::from(self.most) => {
                Err(Mistake::TooMany(name, self.most))
            }
            None => {
                self.words.push(name)?;
                Ok(())
            }
        }
    }
}
