// Reading a manual, line by line.
use crate::context::Context;
use crate::fault::{Fault, Mistake};
use crate::manual::{Manual, Sentence};
use crate::names::Names;
use std::alloc::Global;
use texts::line::Lines;

// As many as a session can tell apart.
const ATTRIBUTES: u16 = 32;

const VALUES: u16 = 65_535;

const WORDS: u16 = 64;

impl Manual {
    // The manual of a text, or its first fault.
    pub fn read(heap: Global, text: &str) -> Result<Manual, Fault> {
        let mut reader = Reader::new(heap);
        for line in Lines::of(text) {
            reader.read(line.text).map_err(|mistake| Fault {
                line: line.number,
                mistake,
            })?;
        }
        Ok(reader.manual)
    }
}

// A manual of which the lines so far are read.
#[derive(Drop)]
struct Reader {
    heap: Global,
    manual: Manual,
    // that of the sentences to come
    language: Option<String>,
}

impl Reader {
    fn new(heap: Global) -> Reader {
        let manual = Manual {
            attributes: Names::new(heap, ATTRIBUTES),
            values: Names::new(heap, VALUES),
            sentences: Vec::new(heap),
        };
        Reader {
            heap,
            manual,
            language: None,
        }
    }

    // One line more, without its comment.
    fn read(&mut self, text: &str) -> Result<(), Mistake> {
        if text.is_empty() {
            return Ok(());
        }
        match text.split_once(' ') {
            Some(("language", name)) => {
                self.language = Some(String::from_str(self.heap, name.trim())?);
                Ok(())
            }
            Some(("attributes", names)) => self.manual.attributes.add_all(self.heap, names),
            Some(("values", names)) => self.manual.values.add_all(self.heap, names),
            Some(("sentence", words)) => self.begin(words.trim()),
            Some(("words", names)) => self.name_words(names),
            _ => self.state(text),
        }
    }

    // A sentence of which nothing is said.
    fn begin(&mut self, text: &str) -> Result<(), Mistake> {
        let language = self.language.as_ref().ok_or(Mistake::NoLanguage)?;
        let sentence = Sentence {
            language: language.clone()?,
            text: String::from_str(self.heap, text)?,
            words: Names::new(self.heap, WORDS),
            equations: Vec::new(self.heap),
        };
        self.manual.sentences.push(sentence)?;
        Ok(())
    }

    // Words of the last sentence.
    fn name_words(&mut self, names: &str) -> Result<(), Mistake> {
        let sentence = self.manual.sentences.last_mut().ok_or(Mistake::NoSentence)?;
        sentence.words.add_all(self.heap, names)
    }

    // An equation of the last sentence.
    fn state(&mut self, text: &str) -> Result<(), Mistake> {
        let sentence = self.manual.sentences.last_mut().ok_or(Mistake::NoSentence)?;
        let context = Context {
            attributes: &self.manual.attributes,
            values: &self.manual.values,
            sentence: &*sentence,
        };
        let equation = context.read_equation(self.heap, text)?;
        sentence.equations.push(equation)?;
        Ok(())
    }
}
