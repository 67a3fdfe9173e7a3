// Answers of calls. Each function prints one from the start of the buffer, and answers what comes of the line.
ghost use Rattle.std.specs.Prelude.{◌≡◌, ◌≤◌, length};
ghost use Rattle.answers.specs.Answers.{lists};
ghost use Rattle.listings.specs.Buffers.{Fitted};
ghost use Rattle.printing.specs.Texts.{answered_text, answer_text, error};
ghost use Rattle.printing.specs.Grounds.{ground_text};
ghost use Rattle.printing.specs.Outcomes.{Printed, AnswerPrinted, by_call};

use crate::line::Line;
use crate::outcome::{Ground, RefusedLine};
use crate::refusals::Refused;
use answers::refusal::Refusal;
use buffers::Writer;

// The line of an answer or a refusal, and how many bytes that took.
fn write_line<L: Line>(out: &mut [u8], line: &L) -> usize
    requires { length (L.text line.now) ≤ length out.old }
    ensures { Fitted (L.text line.now) out.old out.new result }
{
    let mut writer = Writer::over(out);
    line.put(&mut writer);
    writer.count()
}

// A refusal; a trail's attributes stand at the start of `trail`.
pub fn refuse(out: &mut [u8], cause: Ground, trail: &[u16]) -> RefusedLine
    requires { length (ground_text trail.now cause) ≤ length out.old }
    ensures cause { result.cause ≡ cause }
    ensures bytes { Fitted (ground_text trail.now cause) out.old out.new result.printed }
{
    RefusedLine {
        cause,
        printed: write_line(out, &Refused { cause, trail }),
    }
}

// The answer to a call, with the trail that it left.
pub fn print<A: Line + Copy>(
    out: &mut [u8],
    answer: Result<A, Refusal>,
    trail: &[u16],
) -> Result<usize, RefusedLine>
    requires { length (answered_text A.text trail.now answer) ≤ length out.old }
    ensures { Printed (answered_text A.text trail.now answer) (by_call (error answer)) out.old out.new result }
{
    match answer {
        Ok(found) => Ok(write_line(out, &found)),
        Err(refusal) => Err(refuse(out, Ground::Call(refusal), trail)),
    }
}

// The answer to `list`, with the buffer that it left.
pub fn print_listing(
    out: &mut [u8],
    answer: Result<usize, Refusal>,
    listing: &[u8],
) -> Result<usize, RefusedLine>
    requires { length (answer_text (lists answer listing.now)) ≤ length out.old }
    ensures { AnswerPrinted (lists answer listing.now) out.old out.new result }
{
    let listed = answer.map(|size| &listing[..listing.len().min(size)]);
    print(out, listed, &[])
}
