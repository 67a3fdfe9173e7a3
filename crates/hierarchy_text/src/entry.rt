// A line of the notation: a name, then a colon and its supertypes, then a mark.
ghost use Rattle.std.specs.Prelude.{◌≡◌, ◌↔◌, [], IsNone, IfOk, IfSome};
ghost use Rattle.texts.specs.Words.{words_of};

use crate::fault::Fault;
use std::alloc::Global;
use texts::line::{Line, without_comment};
use texts::named::Named;

// A type as a line has it.
#[derive(Drop)]
pub struct Entry {
    pub line: usize,
    pub name: String,
    pub supertypes: Vec<String>,
    pub leaf: bool,
}

impl Entry {
    // The type of a line, or none where nothing stands there but a comment.
    pub fn read(heap: Global, line: usize, text: &str) -> Result<Option<Entry>, Fault>
        ensures line { IfOk result (λ found. IfSome found (λ entry. entry.line ≡ line)) }
        ensures none { IfOk result (λ found. IsNone found ↔ (words_of text.now ≡ [])) }
    {
        let text = without_comment(text);
        Entry::of(heap, Line { number: line, text })
    }

    // The type of a line whose comment is taken off, or none where nothing is left of it.
    pub fn of(heap: Global, line: Line) -> Result<Option<Entry>, Fault>
        ensures line { IfOk result (λ found. IfSome found (λ entry. entry.line ≡ line.entry.number)) }
        ensures none { IfOk result (λ found. IsNone found ↔ (line.entry.text.now ≡ [])) }
    {
        if line.text.is_empty() {
            return Ok(None);
        }
        let (text, leaf) = without_mark(line.text);
        let (name, words) = text.split_once(':').unwrap_or((text, ""));
        Ok(Some(Entry {
            line: line.number,
            name: read_name(heap, line.number, name.trim())?,
            supertypes: words
                .split_whitespace()
                .map(|word| read_name(heap, line.number, word))
                .try_collect(heap)?,
            leaf,
        }))
    }
}

impl Named for Entry {
    ghost use Rattle.hierarchy_text.specs.Names.{name_of};

    ghost name_of = { name_of };

    fn name(&self) -> &str {
        self.name.as_str()
    }
}

// What stands before the mark for leaves, and whether there is one.
fn without_mark(text: &str) -> (&str, bool) {
    text.strip_suffix('!')
        .map_or((text, false), |before| (before, true))
}

fn read_name(heap: Global, line: usize, word: &str) -> Result<String, Fault> {
    if word.is_empty() {
        return Err(Fault::NoName(line));
    }
    let name = String::from_str(heap, word)?;
    if word.bytes().all(is_of_name) {
        Ok(name)
    } else {
        Err(Fault::WrongName(line, name))
    }
}

// Can a name have this byte?
fn is_of_name(byte: u8) -> bool {
    byte.is_ascii_graphic() && !matches!(byte, b':' | b'!' | b'#')
}
