// The line program: standard input in, answers out.
#![tactic(auto)]

use lines::line_buffer::LineBuffer;
use lines::responder::Responder;
use printing::outcome::{ROOM, printed};
use std::io;
use std::io::{BufWriter, Read, Stdin, Stdout, Write};

// As many bytes as are read at once.
const CHUNK: usize = 65536;

// What answers lines, the line that is being read, the page on which an answer is printed, and where it goes.
#[derive(Drop)]
struct Program {
    responder: Responder,
    line: LineBuffer,
    page: Vec<u8>,
    output: BufWriter<Stdout>,
}

impl Program {
    // All memory for lines and answers is taken here.
    fn open(rt: &HostRuntime) -> io::Result<Program> {
        Ok(Program {
            responder: Responder::open(rt.alloc())?,
            line: LineBuffer::new(),
            page: vec![in rt.alloc(); 0; ROOM]?,
            output: BufWriter::new(rt.alloc(), rt.stdout())?,
        })
    }

    // Prints the answer to the line, and begins the next.
    fn answer(&mut self) -> io::Result<()> {
        let outcome = self.responder.respond(self.line.line(), &mut self.page);
        self.line.clear();
        self.output.write_all(&self.page[..printed(&outcome)])
    }

    // Answers each line that ends among the bytes.
    fn answer_all(&mut self, bytes: &[u8]) -> io::Result<()> {
        for byte in bytes {
            if *byte == b'\n' {
                self.answer()?;
            } else {
                self.line.add(*byte);
            }
        }
        Ok(())
    }

    // Answers all lines of the input; the last needs no line end.
    fn run(&mut self, input: &mut Stdin, chunk: &mut [u8]) -> io::Result<()> {
        for _ in 0..u64::MAX {
            let count = input.read(chunk)?;
            if count == 0 {
                break;
            }
            self.answer_all(&chunk[..count])?;
        }
        if !self.line.line().is_empty() {
            self.answer()?;
        }
        self.output.flush()
    }
}

fn main(rt: HostRuntime) -> io::Result<()> {
    let mut program = Program::open(&rt)?;
    let mut chunk = vec![in rt.alloc(); 0; CHUNK]?;
    program.run(&mut rt.stdin(), &mut chunk)
}
