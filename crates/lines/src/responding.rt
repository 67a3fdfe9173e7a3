// A line, taken from its bytes to its answer.
ghost use Rattle.std.specs.Prelude.{◌≤◌, length};
ghost use Rattle.printing.specs.Outcomes.{size};
ghost use Rattle.lines.specs.Responses.{Responds};

use crate::responder::Responder;
use answers::refusal::Refusal;
use notation::read;
use printing::answering::refuse;
use printing::outcome::{Ground, ROOM, RefusedLine};

impl Responder {
    // Prints the answer to a line, given without its line end, from the start of a buffer, and answers how many bytes that took, and why the line
    // was refused where it was. A buffer with too little room is left as it is, and so is the session.
    pub fn respond(&mut self, line: &[u8], out: &mut [u8]) -> Result<usize, RefusedLine>
        ensures responds { Responds self.old line.now out.old out.new self.new result }
        ensures within { size result ≤ length out.old }
    {
        if out.len() < ROOM {
            return Err(RefusedLine {
                cause: Ground::Call(Refusal::ShortBuffer(ROOM)),
                printed: 0,
            });
        }
        match read(line) {
            Ok(command) => self.call(&command, out),
            Err(why) => Err(refuse(out, Ground::Line(why), &[])),
        }
    }
}
