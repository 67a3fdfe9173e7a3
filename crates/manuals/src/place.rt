// Terms of a sentence's equations.
ghost use Rattle.std.specs.Prelude.{◌≡◌, [], ◌∷◌, ◌++◌, IfOk};

use std::alloc::{AllocError, Global};

// A word of the sentence and the attributes that follow it, by number.
#[derive(Drop)]
pub struct Place {
    pub word: u16,
    // a trail can be longer than a term, so this has no fixed room
    pub path: Vec<u16>,
}

impl Place {
    // A word that no attribute follows.
    pub fn of(heap: Global, word: u16) -> Place
        ensures word { result.word ≡ word }
        ensures path { result.path.items ≡ [] }
    {
        let path = Vec::new(heap);
        Place { word, path }
    }

    // The term with one attribute more.
    pub fn extended(&self, attribute: u16) -> Result<Place, AllocError>
        ensures word { IfOk result (λ longer. longer.word ≡ self.now.word) }
        ensures path { IfOk result (λ longer. longer.path.items ≡ self.now.path.items ++ attribute ∷ []) }
    {
        let mut path = Vec::with_capacity(*self.path.allocator(), self.path.len() + 1)?;
        path.extend_from_slice(self.path.as_slice())?;
        path.push(attribute)?;
        Ok(Place {
            word: self.word,
            path,
        })
    }
}
