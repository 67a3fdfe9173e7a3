ghost use Rattle.std.specs.Prelude.{◌≡◌, ◌≤◌, [], length};
ghost use Rattle.buffers.specs.Writing.{so_far, left, room, Wrote};

use super::Writer;

impl<'a> Writer<'a> {
    // A writer that has written nothing.
    pub fn over(buffer: &'a mut [u8]) -> Writer<'a>
        ensures nothing { so_far result ≡ [] }
        ensures all_left { left result ≡ buffer.old }
        ensures room { room result ≡ length buffer.old }
        ensures same_buffer { result.buffer.ghost_name ≡ buffer.entry.ghost_name }
    {
        Writer { buffer, at: 0 }
    }

    // How many bytes were written.
    pub fn count(&self) -> usize
        ensures { result ≡ length (so_far self.now) }
    {
        self.at
    }

    // Writes some bytes after those that were written.
    pub fn put(&mut self, bytes: &[u8])
        requires { length bytes.now ≤ room self.old }
        ensures { Wrote bytes.now self.old self.new }
    {
        let end = self.at + bytes.len();
        self.buffer[self.at..end].copy_from_slice(bytes);
        self.at = end;
    }
}
