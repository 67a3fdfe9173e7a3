// How a reader goes from byte to byte.
ghost use Rattle.std.specs.Prelude.{◌≡◌, ◌+◌, ◌<◌, ◌≤◌, length, Some, None, IfSome};
ghost use Rattle.std.specs.Option.{option_map, SomeIff};
ghost use Rattle.notation.specs.Notation.{space, point};
ghost use Rattle.notation.specs.Readings.{named, text, closed as term_closed, Admits, appended as appended_number, related, within_term, Ranged};
ghost use Rattle.notation.specs.Views.{command_of, operand_reading, assignment_reading, reading_of, Steps, Says};

use crate::class::{Call, Class, Relation};
use crate::command::Command;
use crate::path::Path;
use crate::state::{Assignment, Operand, Place, State};

// The greatest number of a variable or an attribute.
const GREATEST_NAME: u64 = 65535;

// The number with one digit more. A zero takes none, and no number passes the greatest.
fn appended(number: Option<u64>, digit: u8, greatest: u64) -> Option<u64>
    requires digit { digit < 10 }
    requires digits { 10 ≤ greatest }
    ensures { SomeIff result (Admits greatest number digit) (appended_number number digit) }
{
    let digit = u64::from(digit);
    match number {
        None => Some(digit),
        Some(0) => None,
        Some(n) => n
            .checked_mul(10)?
            .checked_add(digit)
            .filter(|longer| *longer <= greatest),
    }
}

// The term of which the number is the last.
fn closed(stem: Option<Path>, number: u16) -> Path
    requires { IfSome stem (λ t. length t.path < 60) }
    ensures { result ≡ term_closed stem number }
{
    match stem {
        None => Path::only(number),
        Some(mut term) => {
            term.push(number);
            term
        }
    }
}

impl Call {
    // The state after the space that follows the letter.
    fn opened(self) -> Option<State>
        ensures { Steps (named self) space result reading_of }
    {
        let place = match self {
            Call::Declare | Call::List => return None,
            Call::Value => Place::Value,
            Call::Is => Place::Is,
            Call::Relate(relation) => Place::Left(relation),
        };
        Some(State::Term(Operand::begun(place)))
    }
}

impl Operand {
    // Nothing of the term was read.
    fn begun(place: Place) -> Operand
        requires ranged { Ranged (within_term place None None) }
        requires short { length (text (within_term place None None)) ≤ 120 }
        ensures { operand_reading result ≡ within_term place None None }
    {
        Operand {
            place,
            stem: None,
            number: None,
        }
    }

    // Takes the term out as it is, where a number is its last.
    fn take(&mut self) -> Option<Path>
        ensures value { result ≡ option_map (term_closed self.old.stem) self.old.number }
        ensures place { self.new.place ≡ self.old.place }
        ensures number { self.new.number ≡ None }
    {
        let number = self.number.take()?;
        Some(closed(self.stem.take(), number as u16))
    }

    // One digit more.
    fn lengthen(&mut self, digit: u8) -> Option<()>
        requires digit { digit < 10 }
        requires room { length (text (operand_reading self.old)) < 120 }
        ensures { Steps (operand_reading self.old) (48 + digit) result (λ _. operand_reading self.new) }
    {
        self.number = Some(appended(self.number, digit, GREATEST_NAME)?);
        Some(())
    }

    // A point, which may follow a number.
    fn point(&mut self) -> Option<()>
        requires { length (text (operand_reading self.old)) < 120 }
        ensures { Steps (operand_reading self.old) point result (λ _. operand_reading self.new) }
    {
        self.stem = Some(self.take()?);
        Some(())
    }

    // The state after a space, which may follow a term where another operand is to come.
    fn spaced(&mut self) -> Option<State>
        requires { length (text (operand_reading self.old)) < 120 }
        ensures { Steps (operand_reading self.old) space result reading_of }
    {
        let term = self.take()?;
        match &self.place {
            Place::Is => Some(State::Number(Assignment { term, number: None })),
            Place::Left(relation) => {
                let right = Place::Right(*relation, term);
                Some(State::Term(Operand::begun(right)))
            }
            Place::Value | Place::Right(_, _) => None,
        }
    }

    // The command of a line that ends here, if it is one.
    fn ended(mut self) -> Option<Command>
        ensures { Says (operand_reading self) result }
    {
        let term = self.take()?;
        let place = self.place;
        match place {
            Place::Value => Some(Command::Value(term)),
            Place::Right(relation, left) => Some(relation.between(left, term)),
            Place::Is | Place::Left(_) => None,
        }
    }
}

impl Relation {
    fn between(self, left: Path, right: Path) -> Command
        ensures { command_of result ≡ related self left right }
    {
        match self {
            Relation::Equals => Command::Equals(left, right),
            Relation::Apart => Command::Apart(left, right),
            Relation::Same => Command::Same(left, right),
        }
    }
}

impl Assignment {
    // One digit more.
    fn lengthen(&mut self, digit: u8) -> Option<()>
        requires { digit < 10 }
        ensures { Steps (assignment_reading self.old) (48 + digit) result (λ _. assignment_reading self.new) }
    {
        self.number = Some(appended(self.number, digit, u64::MAX)?);
        Some(())
    }

    // The command of a line that ends here, if it is one.
    fn ended(self) -> Option<Command>
        ensures { Says (assignment_reading self) result }
    {
        Some(Command::Is(self.term, self.number?))
    }
}

impl State {
    // One byte more, if some line goes on so.
    pub(crate) fn step(&mut self, byte: u8) -> Option<()>
        requires { length (text (reading_of self.old)) < 120 }
        ensures { Steps (reading_of self.old) byte result (λ _. reading_of self.new) }
    {
        match (&mut *self, Class::of(byte)) {
            (State::Start, Class::Letter(call)) => *self = State::Named(call),
            (State::Named(call), Class::Space) => *self = call.opened()?,
            (State::Term(operand), Class::Digit(digit)) => operand.lengthen(digit)?,
            (State::Term(operand), Class::Point) => operand.point()?,
            (State::Term(operand), Class::Space) => *self = operand.spaced()?,
            (State::Number(assignment), Class::Digit(digit)) => assignment.lengthen(digit)?,
            _ => return None,
        }
        Some(())
    }

    // The command of a line that ends here, if it is one.
    pub(crate) fn command(self) -> Option<Command>
        ensures { Says (reading_of self) result }
    {
        match self {
            State::Named(Call::Declare) => Some(Command::Declare),
            State::Named(Call::List) => Some(Command::List),
            State::Term(operand) => operand.ended(),
            State::Number(assignment) => assignment.ended(),
            State::Start | State::Named(_) => None,
        }
    }
}
