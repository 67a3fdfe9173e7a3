// A graph as attribute-value matrices, one for each word. Each pair of brackets holds the attributes of a node, one below the other; a node that is
// reached in several ways has a number in brackets of its own, and stands in full only where it is reached first.
ghost use Rattle.std.specs.Prelude.{◌≤◌};

use crate::outline::{Edge, Mention, Node, Outline};
use manuals::context::Context;
use std::fmt;

// No node is further from a word than this.
const DEEPEST: usize = 8;

#[derive(Drop)]
pub struct Matrix<'a> {
    pub context: Context<'a>,
    pub outline: &'a Outline,
    // the column in which it begins
    pub margin: usize,
}

impl fmt::Display for Matrix<'_> {
    fn fmt<W: fmt::Write>(&self, f: &mut fmt::Formatter<W>) -> fmt::Result {
        let words = &self.context.sentence.words;
        let margin = self.margin;
        let width = words
            .iter()
            .map(|word| columns(word.as_str()))
            .max()
            .unwrap_or(0);
        let column = margin.saturating_add(width).saturating_add(2);
        for (word, mention) in words.iter().zip(self.outline.words.iter()) {
            write!(f, "{:margin$}{word:width$}  ", "")?;
            self.write_mention(f, *mention, column, DEEPEST)?;
            writeln!(f, "")?;
        }
        Ok(())
    }
}

impl Matrix<'_> {
    fn longest_attribute(&self, node: &Node) -> usize {
        node.edges
            .iter()
            .map(|edge| columns(self.context.attributes.name(edge.attribute)))
            .max()
            .unwrap_or(0)
    }

    // A node where it is mentioned: its number, and where it is mentioned first also its value, or brackets around its attributes.
    fn write_mention<W: fmt::Write>(
        &self,
        f: &mut fmt::Formatter<W>,
        mention: Mention,
        column: usize,
        depth: usize,
    ) -> fmt::Result {
        let first = match mention {
            Mention::First(first) => first,
            Mention::Later(earlier) => {
                let node = self.outline.nodes.get(earlier);
                return match node.and_then(|node| node.label).map(Label) {
                    Some(label) => write!(f, "{label}"),
                    None => Ok(()),
                };
            }
        };
        let Some(node) = self.outline.nodes.get(first) else {
            return Ok(());
        };
        let label = node.label.map(Label);
        if let Some(label) = label {
            write!(f, "{label} ")?;
        }
        if let Some(value) = node.value {
            let name = self.context.values.name(value);
            return write!(f, "{name}");
        }
        if depth == 0 {
            return write!(f, "...");
        }
        let width = self.longest_attribute(node);
        let before = label.map_or(0, |label| label.width() + 1);
        let inner = column.saturating_add(before).saturating_add(2);
        let next = inner.saturating_add(width).saturating_add(1);
        write!(f, "[")?;
        for (i, edge) in node.edges.iter().enumerate() {
            self.write_attribute(f, i == 0, *edge, inner, width)?;
            self.write_mention(f, edge.target, next, depth - 1)?;
        }
        write!(f, " ]")
    }

    // The name of an attribute, on a line of its own if it is not the first.
    fn write_attribute<W: fmt::Write>(
        &self,
        f: &mut fmt::Formatter<W>,
        first: bool,
        edge: Edge,
        column: usize,
        width: usize,
    ) -> fmt::Result {
        if first {
            write!(f, " ")?;
        } else {
            write!(f, "\n{:column$}", "")?;
        }
        let name = self.context.attributes.name(edge.attribute);
        write!(f, "{name:width$} ")
    }
}

// How many columns a name takes.
fn columns(name: &str) -> usize {
    name.chars().count()
}

// The boxed number of a node.
#[derive(Clone, Copy)]
struct Label(usize);

impl Label {
    // How many columns it takes: no graph has 1000 nodes.
    fn width(self) -> usize
        ensures { result ≤ 5 }
    {
        match self.0 {
            0..=9 => 3,
            10..=99 => 4,
            _ => 5,
        }
    }
}

impl fmt::Display for Label {
    fn fmt<W: fmt::Write>(&self, f: &mut fmt::Formatter<W>) -> fmt::Result {
        let number = self.0;
        write!(f, "[{number}]")
    }
}
