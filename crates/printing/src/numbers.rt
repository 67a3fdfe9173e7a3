// Numbers and terms.
ghost use Rattle.std.specs.Prelude.{◌≤◌, ◌∷◌, length, decimal};
ghost use Rattle.buffers.specs.Writing.{room, Wrote};
ghost use Rattle.notation.specs.Notation.{point, written_path, written_term};
ghost use Rattle.printing.specs.Texts.{spaced, term};

use buffers::Writer;
use itoa::Buffer;

pub(crate) fn put_decimal(writer: &mut Writer, n: u64)
    requires { length (decimal n) ≤ room writer.old }
    ensures { Wrote (decimal n) writer.old writer.new }
{
    let mut buffer = Buffer::new();
    writer.put(buffer.format(n).as_bytes());
}

// A space and a number.
pub(crate) fn put_spaced(writer: &mut Writer, n: u64)
    requires { length (spaced (decimal n)) ≤ room writer.old }
    ensures { Wrote (spaced (decimal n)) writer.old writer.new }
{
    writer.put(b" ");
    put_decimal(writer, n);
}

// A point and an attribute.
fn put_attribute(writer: &mut Writer, attribute: u16)
    requires { length (point ∷ decimal attribute) ≤ room writer.old }
    ensures { Wrote (point ∷ decimal attribute) writer.old writer.new }
{
    writer.put(b".");
    put_decimal(writer, attribute as u64);
}

fn put_path(writer: &mut Writer, path: &[u16])
    requires { length (written_path path.now) ≤ room writer.old }
    ensures { Wrote (written_path path.now) writer.old writer.new }
{
    for attribute in path {
        put_attribute(writer, *attribute);
    }
}

pub(crate) fn put_term(writer: &mut Writer, var: u16, path: &[u16])
    requires { length (written_term (term var path.now)) ≤ room writer.old }
    ensures { Wrote (written_term (term var path.now)) writer.old writer.new }
{
    put_decimal(writer, var as u64);
    put_path(writer, path);
}
