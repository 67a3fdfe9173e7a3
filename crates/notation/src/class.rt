// What a byte can be in a line.
ghost use Rattle.notation.specs.Classes.{Classed};

// The calls that take two terms.
#[derive(Clone, Copy, PartialEq, Eq, Debug)]
pub enum Relation {
    Equals,
    Apart,
    Same,
}

// The call that the first letter of a line chooses.
#[derive(Clone, Copy, PartialEq, Eq, Debug)]
pub enum Call {
    Declare,
    List,
    Value,
    Is,
    Relate(Relation),
}

#[derive(Clone, Copy, PartialEq, Eq, Debug)]
pub enum Class {
    Letter(Call),
    Digit(u8),
    Point,
    Space,
    Other,
}

impl Class {
    pub fn of(byte: u8) -> Class
        ensures { Classed byte result }
    {
        match byte as char {
            'v' => Class::Letter(Call::Declare),
            'l' => Class::Letter(Call::List),
            'w' => Class::Letter(Call::Value),
            'k' => Class::Letter(Call::Is),
            'e' => Class::Letter(Call::Relate(Relation::Equals)),
            'd' => Class::Letter(Call::Relate(Relation::Apart)),
            's' => Class::Letter(Call::Relate(Relation::Same)),
            '0'..='9' => Class::Digit(byte - b'0'),
            '.' => Class::Point,
            ' ' => Class::Space,
            _ => Class::Other,
        }
    }
}
