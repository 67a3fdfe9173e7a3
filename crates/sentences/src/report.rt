// What is said of a sentence.
use crate::findings::Findings;
use crate::matrix::Matrix;
use crate::orders::MOST;
use crate::verdict::{Clash, Ground, Position, Verdict};
use manuals::context::Context;
use std::fmt;

// How far what belongs to a sentence is set in.
const MARGIN: usize = 3;

#[derive(Drop)]
pub struct Report<'a> {
    pub context: Context<'a>,
    pub findings: &'a Findings,
}

impl<'a> Report<'a> {
    // The equations, each with its place.
    fn write_equations<W: fmt::Write>(&self, f: &mut fmt::Formatter<W>) -> fmt::Result {
        let context = self.context;
        for (i, said) in context.sentence.equations.iter().enumerate() {
            let place = Position(i);
            let equation = context.worded(said);
            writeln!(f, "{:MARGIN$}{place:2}  {equation}", "")?;
        }
        Ok(())
    }

    // Which equation is refused, at which node, and why.
    fn write_clash<W: fmt::Write>(
        &self,
        f: &mut fmt::Formatter<W>,
        clash: &'a Clash,
    ) -> fmt::Result {
        let refused = clash.equation;
        let trail = self.context.worded(&clash.trail);
        writeln!(f, "{:MARGIN$}CLASH: equation {refused} is refused.", "")?;
        write!(f, "{:MARGIN$}At `{trail}` ", "")?;
        match clash.ground {
            Some(ground) => self.write_ground(f, ground),
            None => writeln!(f, "no value is right."),
        }
    }

    fn write_ground<W: fmt::Write>(
        &self,
        f: &mut fmt::Formatter<W>,
        ground: Ground,
    ) -> fmt::Result {
        let Context {
            attributes,
            values,
            ..
        } = self.context;
        match ground {
            Ground::TwoValues(first, second) => {
                let i = first.equation;
                let j = second.equation;
                let first = values.name(first.value);
                let second = values.name(second.value);
                writeln!(
                    f,
                    "two values meet: {first} by equation {i}, {second} by equation {j}."
                )
            }
            Ground::ValueAndAttribute(giving, attribute) => {
                let i = giving.equation;
                let value = values.name(giving.value);
                let name = attributes.name(attribute);
                writeln!(
                    f,
                    "stands the value {value} by equation {i}, which can have no attribute; but there is `{name}`."
                )
            }
        }
    }

    fn write_orders<W: fmt::Write>(&self, f: &mut fmt::Formatter<W>) -> fmt::Result {
        write!(f, "{:MARGIN$}Orders of the equations: ", "")?;
        match self.findings.orders {
            Some(orders) => writeln!(f, "{orders}"),
            None => writeln!(f, "not tried, as there are more than {MOST} equations."),
        }
    }
}

impl fmt::Display for Report<'_> {
    fn fmt<W: fmt::Write>(&self, f: &mut fmt::Formatter<W>) -> fmt::Result {
        let language = self.context.sentence.language.as_str();
        let text = self.context.sentence.text.as_str();
        writeln!(f, "{language}: {text}\n")?;
        self.write_equations(f)?;
        writeln!(f, "")?;
        match &self.findings.verdict {
            Verdict::Agrees(outline) => {
                let matrix = Matrix {
                    context: self.context,
                    outline,
                    margin: MARGIN,
                };
                writeln!(f, "{:MARGIN$}AGREES. The features:\n\n{matrix}", "")?;
            }
            Verdict::Clashes(clash) => self.write_clash(f, clash)?,
        }
        self.write_orders(f)
    }
}
