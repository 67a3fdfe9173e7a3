// The calls that lines write.
ghost use Rattle.std.specs.Prelude.{◌≡◌, ◌≤◌, length};
ghost use Rattle.notation.specs.Views.{command_of};
ghost use Rattle.lines.specs.Responses.{Called};

use crate::responder::Responder;
use kinds::atoms::Atoms;
use notation::command::Command;
use printing::answering::{print, print_listing};
use printing::outcome::RefusedLine;
use session::session::Session;

impl Responder {
    // Makes the call of a command and prints its answer.
    pub(crate) fn call(&mut self, command: &Command, out: &mut [u8]) -> Result<usize, RefusedLine>
        requires { 54877 ≤ length out.old }
        ensures { Called self.old (command_of command.now) out.old out.new self.new result }
    {
        match command {
            Command::Declare => print(out, self.session.declare(), &[]),
            Command::Equals(p, q) => {
                let answer = self.session.equals(p.term(), q.term(), &mut self.trail);
                print(out, answer, &self.trail)
            }
            Command::Is(p, value) => {
                let answer = self.session.is(p.term(), *value, &mut self.trail);
                print(out, answer, &self.trail)
            }
            Command::Apart(p, q) => {
                let answer = self.session.apart(p.term(), q.term(), &mut self.trail);
                print(out, answer, &self.trail)
            }
            Command::Same(p, q) => print(out, self.session.same(p.term(), q.term()), &[]),
            Command::Value(p) => print(out, self.session.value(p.term()), &[]),
            Command::List => {
                let answer = self.session.list(&mut self.listing);
                print_listing(out, answer, &self.listing)
            }
        }
    }
}
