// What can be wrong with a manual's text.
ghost use Rattle.std.specs.Prelude.{◌≡◌};
ghost use Rattle.manuals.specs.declared.fault.Mistake.TheVariants.{Memory};

use std::alloc::{AllocError, AllocFailed};
use std::fmt;
use thiserror::Error;

// The line at which the reading ended, counted from 1, and why it did.
#[derive(Debug, Drop)]
pub struct Fault {
    pub line: usize,
    pub mistake: Mistake,
}

#[derive(Debug, Drop, Error)]
pub enum Mistake {
    #[error("There is not enough memory.")]
    Memory,
    // the name stands there already
    #[error("`{0}` is named twice.")]
    Repeated(String),
    // one name more than there can be
    #[error("`{0}` is one name too many. There can be {1}.")]
    TooMany(String, u16),
    // a sentence before any language
    #[error("a sentence needs a line `language` above it.")]
    NoLanguage,
    // words or an equation before any sentence
    #[error("words and equations need a line `sentence` above them.")]
    NoSentence,
    // neither `=` nor `is`
    #[error("an equation has `=` between two terms, or `is` between a term and a value.")]
    NoEquation,
    // no term where there should be one
    #[error("a term is missing.")]
    NoTerm,
    #[error("`{0}` is none of the sentence's words.")]
    UnknownWord(String),
    #[error("`{0}` is no attribute.")]
    UnknownAttribute(String),
    #[error("`{0}` is no value.")]
    UnknownValue(String),
    // a term has more than 7 attributes
    #[error("a term has at most 7 attributes.")]
    LongTerm,
}

// The derived From has no clause, and `Names::add` says which mistake it was.
impl From<AllocError> for Mistake {
    ghost from_gives = { λ _ e. e ≡ Memory };

    fn from(_e: AllocError) -> Mistake {
        Mistake::Memory
    }
}

impl<T: Drop> From<AllocFailed<T>> for Mistake {
    ghost from_gives = { λ _ e. e ≡ Memory };

    fn from(_e: AllocFailed<T>) -> Mistake {
        Mistake::Memory
    }
}

// Memory runs out at no line.
impl From<AllocError> for Fault {
    ghost from_gives = { λ _ fault. fault.mistake ≡ Memory };

    fn from(e: AllocError) -> Fault {
        Fault {
            line: 0,
            mistake: Mistake::from(e),
        }
    }
}

impl<T: Drop> From<AllocFailed<T>> for Fault {
    ghost from_gives = { λ _ fault. fault.mistake ≡ Memory };

    fn from(failed: AllocFailed<T>) -> Fault {
        Fault {
            line: 0,
            mistake: Mistake::from(failed),
        }
    }
}

// No line where memory is out.
impl fmt::Display for Fault {
    fn fmt<W: fmt::Write>(&self, f: &mut fmt::Formatter<W>) -> fmt::Result {
        let line = self.line;
        match &self.mistake {
            Mistake::Memory => self.mistake.fmt(f),
            mistake => write!(f, "Line {line}: {mistake}"),
        }
    }
}
