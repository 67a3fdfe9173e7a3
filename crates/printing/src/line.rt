// The lines of answers that are no refusals.
ghost use Rattle.std.specs.Prelude.{ℕ, ◌≤◌, List, length};
ghost use Rattle.buffers.specs.Writing.{room, Wrote};
ghost use Rattle.printing.specs.Texts.{variable_text, accepted_text, sameness_text, found_text, hexadecimal};

use crate::hexadecimal::put_hexadecimal;
use crate::numbers::{put_decimal, put_spaced};
use buffers::Writer;

// What has a line, or several.
pub trait Line {
    // Its bytes, with the line end.
    ghost text: { Self → List ℕ };

    fn put(&self, writer: &mut Writer)
        requires { length (text self.now) ≤ room writer.old }
        ensures { Wrote (text self.now) writer.old writer.new };
}

// The variable that was declared.
impl Line for u16 {
    ghost text = { variable_text };

    fn put(&self, writer: &mut Writer) {
        writer.put(b"ok");
        put_spaced(writer, *self as u64);
        writer.put(b"\n");
    }
}

// That a statement was accepted.
impl Line for () {
    ghost text = { accepted_text };

    fn put(&self, writer: &mut Writer) {
        writer.put(b"ok\n");
    }
}

// Whether two terms denote one node.
impl Line for bool {
    ghost text = { sameness_text };

    fn put(&self, writer: &mut Writer) {
        if *self {
            writer.put(b"yes\n");
        } else {
            writer.put(b"no\n");
        }
    }
}

// A value, or that there is none.
impl Line for Option<u64> {
    ghost text = { found_text };

    fn put(&self, writer: &mut Writer) {
        match self {
            Some(value) => {
                put_decimal(writer, *value);
                writer.put(b"\n");
            }
            None => writer.put(b"none\n"),
        }
    }
}

// A listing.
impl Line for &[u8] {
    ghost text = { λ bytes. hexadecimal bytes.now };

    fn put(&self, writer: &mut Writer) {
        put_hexadecimal(writer, self);
    }
}
