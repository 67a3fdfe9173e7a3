// The lines of a text.
ghost use Rattle.std.specs.Prelude.{◌≡◌, ◌+◌, ◌<◌, ◌^◌, length};
ghost use Rattle.std.specs.Str.Iter.{lines_rest};
ghost use Rattle.std.specs.Iterator.{at_most};
ghost use Rattle.texts.specs.Words.{words_of};

use std::str;

// A line by its number, counted from 1, and the words on it: what stands before a comment, without outer spaces.
#[derive(Clone, Copy)]
pub struct Line<'a> {
    pub number: usize,
    pub text: &'a str,
}

// The lines of a text that are left, and how many came before them.
#[derive(Drop)]
pub struct Lines<'a> {
    left: str::Lines<'a>,
    before: usize,
    ghost countable: { before + length (lines_rest left) < 2 ^ 64 },
}

impl Lines<'_> {
    pub fn of(text: &str) -> Lines<'_>
        ensures { (lines_rest result.left ≡ text.now) × (result.before ≡ 0) }
    {
        Lines {
            left: text.lines(),
            before: 0,
        }
    }
}

impl<'a> Iterator for Lines<'a> {
    ghost use Rattle.texts.specs.Lines.{GivesLine};

    type Item = Line<'a>;

    ghost next_gives = { GivesLine };

    ghost remaining = { λ s. at_most (length (lines_rest s.left)) };

    fn next(&mut self) -> Option<Line<'a>> {
        let text = self.left.next()?;
        self.before += 1;
        Some(Line {
            number: self.before,
            text: without_comment(text),
        })
    }
}

// What stands before a comment, without outer spaces.
pub fn without_comment(text: &str) -> &str
    ensures { result.now ≡ words_of text.now }
{
    text.split_once('#')
        .map_or(text, |(before, _)| before)
        .trim()
}
