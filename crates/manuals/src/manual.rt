// What a manual holds.
use crate::equation::Equation;
use crate::names::Names;

// The names of attributes and values, which all sentences share, and the sentences.
#[derive(Drop)]
pub struct Manual {
    pub attributes: Names,
    pub values: Names,
    pub sentences: Vec<Sentence>,
}

// A sentence, the words that its equations speak of, and the equations.
#[derive(Drop)]
pub struct Sentence {
    pub language: String,
    pub text: String,
    pub words: Names,
    pub equations: Vec<Equation>,
}
