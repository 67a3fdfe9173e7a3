// Bytes in hexadecimal.
ghost use Rattle.std.specs.Prelude.{◌≡◌, ◌<◌, ◌≤◌, ◌++◌, length};
ghost use mathlib.Core.List.{flat_map};
ghost use Rattle.buffers.specs.Writing.{room, Wrote};
ghost use Rattle.printing.specs.Texts.{line_end, hex_digit, hex_byte, hexadecimal as lines_of};

use buffers::Writer;

// How many bytes a line has, but for the last.
const WIDTH: usize = 32;

// By hand: `{:x}` and `hex::encode_to_slice` answer a Result, and there is nothing to do where it is an error.
fn digit(n: u8) -> u8
    requires { n < 16 }
    ensures { result ≡ hex_digit n }
{
    if n < 10 { b'0' + n } else { b'a' + (n - 10) }
}

fn put_byte(writer: &mut Writer, byte: u8)
    requires { length (hex_byte byte) ≤ room writer.old }
    ensures { Wrote (hex_byte byte) writer.old writer.new }
{
    writer.put(&[digit(byte / 16), digit(byte % 16)]);
}

fn put_line(writer: &mut Writer, bytes: &[u8])
    requires { length (flat_map hex_byte bytes.now ++ line_end) ≤ room writer.old }
    ensures { Wrote (flat_map hex_byte bytes.now ++ line_end) writer.old writer.new }
{
    for byte in bytes {
        put_byte(writer, *byte);
    }
    writer.put(b"\n");
}

pub(crate) fn put_hexadecimal(writer: &mut Writer, bytes: &[u8])
    requires { length (lines_of bytes.now) ≤ room writer.old }
    ensures { Wrote (lines_of bytes.now) writer.old writer.new }
{
    for line in bytes.chunks(WIDTH) {
        put_line(writer, line);
    }
}
