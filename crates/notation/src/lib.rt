// The notation of lines, in which a line writes one call of a session.
#![tactic(auto)]

ghost use Rattle.notation.specs.Reads.{Reads};

mod class;
pub mod command;
pub mod malformed;
pub mod path;
mod reader;
mod state;
pub mod theorems;

use command::Command;
use malformed::Malformed;
use state::State;

// The length of the longest line.
const LONGEST: usize = 120;

// The command that the line writes.
pub fn read(line: &[u8]) -> Result<Command, Malformed>
    ensures { Reads line.now result }
{
    if line.len() > LONGEST {
        return Err(Malformed::TooLong);
    }
    let mut state = State::Start;
    for (i, byte) in line.iter().enumerate() {
        state.step(*byte).ok_or(Malformed::Unfit(i))?;
    }
    state.command().ok_or(Malformed::Unfit(line.len()))
}

#[cfg(test)]
mod tests {
    use super::*;
    use std::test::Fail;

    // Lines outside the notation, each with the length of its longest good beginning.
    #[test]
    fn unfit_lines(rt: HostRuntime) {
        let lines = [
            ("", 0),
            ("x", 0),
            ("V", 0),
            ("vv", 1),
            ("v 0", 1),
            ("v\r", 1),
            ("v\n", 1),
            ("v\0", 1),
            ("v\u{e9}", 1),
            ("e", 1),
            ("e 0", 3),
            ("e  0 0", 2),
            ("e 00 0", 3),
            ("e 0..1 0", 4),
            ("w 0.", 4),
            ("e 65536 0", 6),
            ("e 100000 0", 7),
            ("e 0.65536 0", 8),
            ("e 0.1 0 0", 7),
            ("w 0 0", 3),
            ("k 0 5.1", 5),
            ("k 0 05", 5),
            ("k 0 -1", 4),
            ("k 0 18446744073709551616", 23),
            ("k 0 99999999999999999999", 23),
            (
                "e 0.1.1.1.1.1.1.1.1.1.1.1.1.1.1.1.1.1.1.1.1.1.1.1.1.1.1.1.1.1.1.1.1.1.1.1.1.1.1.1.1.1.1.1.1.1.1.1.1.1.1.1.1.1.1.1.1.1.1.",
                120,
            ),
        ];
        for (line, good) in lines {
            assert_eq!(rt; read(line.as_bytes()).err(), Some(Malformed::Unfit(good)));
        }
    }

    #[test]
    fn longest_lines(rt: HostRuntime) {
        assert_eq!(rt; read(&[b'v'; 120]).err(), Some(Malformed::Unfit(1)));
        assert_eq!(rt; read(&[b'v'; 121]).err(), Some(Malformed::TooLong));
    }

    #[test]
    fn reads_operands(rt: HostRuntime) -> Result<(), Fail> {
        let equation = read(b"e 0.65535.2 13");
        let Ok(Command::Equals(left, right)) = &equation else {
            return Err(Fail::new("no equation"));
        };
        assert_eq!(rt; left.term().var, 0);
        assert_eq!(rt; left.term().path, [65535, 2].as_slice());
        assert_eq!(rt; right.term().var, 13);
        assert!(rt; right.term().path.is_empty());
        let Ok(Command::Is(_, value)) = read(b"k 7 18446744073709551615") else {
            return Err(Fail::new("no value"));
        };
        assert_eq!(rt; value, u64::MAX);
        Ok(())
    }
}
