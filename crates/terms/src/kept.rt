// Terms kept in fixed memory.
ghost use Rattle.std.specs.Prelude.{◌≡◌, ◌<◌, ◌≤◌, length};
ghost use Rattle.features.specs.Terms.{only, ◌▸◌};
ghost use Rattle.terms.specs.Terms.{term_of};

use crate::lent::Term;
use std::marker::Model;

// A term of at most `MOST` attributes: the first `count` of `path` are its own, and zeros stand behind them.
#[derive(Clone, Copy)]
pub struct KeptTerm<const MOST: usize> {
    var: u16,
    count: usize,
    path: [u16; MOST],
}

impl<const MOST: usize> Model for KeptTerm<MOST> {
    ghost use Rattle.std.specs.Prelude.{length, take};
    ghost use Rattle.features.specs.Terms.{Term};
    ghost use Rattle.terms.specs.Kept.{Kept, padded, count_kept, entries_kept};

    ghost Value = { Term };

    ghost view = { λ t. record { var = t.var; path = take t.count t.path } };

    ghost invariant = { λ t. Kept t.count MOST t.path };

    ghost inverse = { λ d. record { var = d.var; count = length d.path; path = padded MOST d.path } };

    ghost inverse_ok = { λ t k i. record { var = t.var; count = count_kept t.count MOST t.path k i; path = entries_kept t.count MOST t.path k i } };
}

impl<const MOST: usize> KeptTerm<MOST> {
    // The variable alone.
    pub fn only(var: u16) -> Self
        ensures { result ≡ only var }
    {
        KeptTerm {
            var,
            count: 0,
            path: [0; MOST],
        }
    }

    // A copy of a term that is short enough.
    pub fn of(term: Term<'_>) -> Self
        requires { length term.path.now ≤ MOST }
        ensures { result ≡ term_of term.entry }
    {
        let mut kept = Self::only(term.var);
        for attribute in term.path {
            kept.push(*attribute);
        }
        kept
    }

    // One attribute more.
    pub fn push(&mut self, attribute: u16)
        requires { length self.old.path < MOST }
        ensures { self.new ≡ self.old ▸ attribute }
    {
        self.path[self.count] = attribute;
        self.count += 1;
    }

    // The term that is kept.
    pub fn term(&self) -> Term<'_>
        ensures value { term_of result ≡ self.now }
        ensures fits { length result.path.now ≤ MOST }
    {
        Term {
            var: self.var,
            path: &self.path[..self.count],
        }
    }
}
