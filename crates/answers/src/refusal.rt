// The grounds on which a session refuses a call.
ghost use Rattle.std.specs.Prelude.{◌≡◌, ◌↔◌, IsTrue};
ghost use Rattle.answers.specs.Refusals.{side_number, number, Clash};

use std::fmt;

// Which of the terms of a call: a lone term is the left one.
#[derive(Clone, Copy, PartialEq, Eq, Debug)]
pub enum Side {
    Left,
    Right,
}

impl Side {
    pub fn number(&self) -> u8
        ensures { result ≡ side_number self.now }
    {
        match self {
            Side::Left => 0,
            Side::Right => 1,
        }
    }
}

impl fmt::Display for Side {
    fn fmt<W: fmt::Write>(&self, f: &mut fmt::Formatter<W>) -> fmt::Result {
        match self {
            Side::Left => write!(f, "left"),
            Side::Right => write!(f, "right"),
        }
    }
}

// Each case carries what it names. Positions and places count from 0.
#[derive(Clone, Copy, PartialEq, Eq, Debug)]
pub enum Refusal {
    // the variable of a term is not declared: side
    Undeclared(Side),
    // a term has more than 8 attributes: side
    LongTerm(Side),
    // an attribute is above 31: side, first position
    NoAttribute(Side, u16),
    // the number given as a value is no value of the kind
    NoSuchValue,
    // the trail has fewer than 272 entries
    ShortTrail,
    // 128 aparts are kept already
    ApartsFull,
    // a node has no value at or below all that came to it: variable and count of attributes of the first such node's trail
    ValueClash(u16, u16),
    // a node has a leaf and an attribute: variable and count of attributes of the first such node's trail
    LeafClash(u16, u16),
    // the two sides of an apart denote one node: place of the first
    ApartClash(u16),
    // 64 variables are declared already
    VariablesFull,
    // the graph would have more than 256 nodes
    NodesFull,
    // the buffer is shorter than the listing: the listing's length
    ShortBuffer(usize),
}

impl Refusal {
    pub fn number(&self) -> u8
        ensures { result ≡ number self.now }
    {
        match self {
            Refusal::Undeclared(_) => 1,
            Refusal::LongTerm(_) => 2,
            Refusal::NoAttribute(_, _) => 3,
            Refusal::NoSuchValue => 4,
            Refusal::ShortTrail => 5,
            Refusal::ApartsFull => 6,
            Refusal::ValueClash(_, _) => 7,
            Refusal::LeafClash(_, _) => 8,
            Refusal::ApartClash(_) => 9,
            Refusal::VariablesFull => 10,
            Refusal::NodesFull => 11,
            Refusal::ShortBuffer(_) => 12,
        }
    }

    // Whether the statements contradict one another, as against a call that is amiss or room that ran out.
    pub fn is_clash(&self) -> bool
        ensures { IsTrue result ↔ Clash self.now }
    {
        matches!(
            self,
            Refusal::ValueClash(_, _) | Refusal::LeafClash(_, _) | Refusal::ApartClash(_)
        )
    }
}

impl fmt::Display for Refusal {
    fn fmt<W: fmt::Write>(&self, f: &mut fmt::Formatter<W>) -> fmt::Result {
        match *self {
            Refusal::Undeclared(side) => {
                write!(f, "the variable of the {side} term is not declared")
            }
            Refusal::LongTerm(side) => write!(f, "the {side} term has more than 8 attributes"),
            Refusal::NoAttribute(side, position) => {
                write!(f, "attribute {position} of the {side} term is above 31")
            }
            Refusal::NoSuchValue => write!(f, "no such value"),
            Refusal::ShortTrail => write!(f, "the trail has fewer than 272 entries"),
            Refusal::ApartsFull => write!(f, "128 aparts are kept already"),
            Refusal::ValueClash(var, count) => write!(
                f,
                "no value fits a node: variable {var} and {count} attributes"
            ),
            Refusal::LeafClash(var, count) => write!(
                f,
                "a leaf has an attribute: variable {var} and {count} attributes"
            ),
            Refusal::ApartClash(place) => write!(f, "the sides of apart {place} are one node"),
            Refusal::VariablesFull => write!(f, "64 variables are declared already"),
            Refusal::NodesFull => write!(f, "more than 256 nodes"),
            Refusal::ShortBuffer(size) => write!(f, "the listing needs {size} bytes"),
        }
    }
}
