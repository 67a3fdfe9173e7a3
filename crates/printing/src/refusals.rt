// Refusals.
ghost use Rattle.std.specs.Prelude.{◌≤◌, length, take};
ghost use Rattle.buffers.specs.Writing.{room, Wrote};
ghost use Rattle.notation.specs.Notation.{written_term};
ghost use Rattle.printing.specs.Texts.{spaced, term, named};
ghost use Rattle.printing.specs.Grounds.{names, ground_text};

use crate::line::Line;
use crate::numbers::{put_spaced, put_term};
use crate::outcome::Ground;
use answers::refusal::Refusal;
use buffers::Writer;
use notation::malformed::Malformed;

// A space and a term whose attributes stand at the start of the trail.
fn put_trail(writer: &mut Writer, var: u16, count: u16, trail: &[u16])
    requires { length (spaced (written_term (term var (take count trail.now)))) ≤ room writer.old }
    ensures { Wrote (spaced (written_term (term var (take count trail.now)))) writer.old writer.new }
{
    writer.put(b" ");
    put_term(writer, var, &trail[..trail.len().min(count as usize)]);
}

// What a refusal by the session names.
fn put_named(writer: &mut Writer, refusal: Refusal, trail: &[u16])
    requires { length (named trail.now refusal) ≤ room writer.old }
    ensures { Wrote (named trail.now refusal) writer.old writer.new }
{
    match refusal {
        Refusal::Undeclared(side) | Refusal::LongTerm(side) => put_spaced(
            writer,
            side.number() as u64,
        ),
        Refusal::NoAttribute(side, position) => {
            put_spaced(writer, side.number() as u64);
            put_spaced(writer, position as u64);
        }
        Refusal::ValueClash(var, count) | Refusal::LeafClash(var, count) => {
            put_trail(writer, var, count, trail);
        }
        Refusal::ApartClash(place) => put_spaced(writer, place as u64),
        Refusal::ShortBuffer(size) => put_spaced(writer, size as u64),
        Refusal::NoSuchValue
        | Refusal::ShortTrail
        | Refusal::ApartsFull
        | Refusal::VariablesFull
        | Refusal::NodesFull => {}
    }
}

// What a refusal names.
fn put_names(writer: &mut Writer, cause: Ground, trail: &[u16])
    requires { length (names trail.now cause) ≤ room writer.old }
    ensures { Wrote (names trail.now cause) writer.old writer.new }
{
    match cause {
        Ground::Call(refusal) => put_named(writer, refusal, trail),
        Ground::Line(Malformed::TooLong) => {}
        Ground::Line(Malformed::Unfit(good)) => put_spaced(writer, good as u64),
    }
}

// A refusal; a trail's attributes stand at the start of `trail`.
#[derive(Clone, Copy)]
pub struct Refused<'a> {
    pub cause: Ground,
    pub trail: &'a [u16],
}

impl Line for Refused<'_> {
    ghost text = { λ r. ground_text r.trail.now r.cause };

    fn put(&self, writer: &mut Writer) {
        writer.put(b"refused");
        put_spaced(writer, self.cause.number() as u64);
        put_names(writer, self.cause, self.trail);
        writer.put(b"\n");
    }
}
