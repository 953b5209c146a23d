//! The command `answer`: a line out for each line in.

ghost use Rattle.std.specs.Prelude.{◌≡◌, ◌==◌, List, [], ◌∷◌, ◌++◌, map, IfOk, IfErr};
ghost use Rattle.std.specs.List.{list_all, slice_split};
ghost use Rattle.tape_frames.specs.Entries.{version_of};
ghost use Rattle.answer_command.specs.AnswerText.{is_blank, lines_of, WritesAnswer, WritesAnswerFront};
ghost use Rattle.answer_command.specs.Seats.{lines_at, answer_at, AnswersInput};
ghost use Rattle.command_ends.specs.Ends.{end_of, IsOfInput};
ghost use Rattle.streams.specs.Writing.{Writes};
ghost use Rattle.command_ends.specs.declared.end.End.TheVariants.{Done};

use crate::line::{AcceptorSeat, answer_line};
use command_ends::{End, Fault, end_with};
use inputs::read_text;
use rows_saved::MemoryRows;
use std::alloc::{AllocError, Global};
use std::io::{Read, Write};
use streams::{PutFault, hand_on, put_all};

fn is_blank(line: &[u8]) -> bool
    ensures { result ≡ is_blank line.now }
{
    line.iter().all(|b| *b == b' ')
}

fn lines_of<'a>(alloc: Global, input: &'a [u8]) -> Result<Vec<&'a [u8]>, AllocError>
    ensures { IfOk result (λ v. map (λ l. l.now) v.items ≡ lines_of input.now) }
{
    input.split(|b| *b == b'\n').collect(alloc)
}

/// What `answer` is asked: where the acceptor sits that answers, and what its lines are read from.
#[derive(Drop)]
pub struct AnswerOrder<R: Read + Drop> {
    pub seat: AcceptorSeat,
    pub input: R,
}

/// Writes the text of a line, and ends the line.
fn put_text<W: Write>(mut text: Vec<u8>, out: &mut W) -> Result<(), PutFault>
    ensures { Writes result (W.contents out.old) (W.contents out.new) (text.items ++ 10 ∷ []) }
{
    text.push(b'\n')?;
    put_all(out, &text)?;
    Ok(())
}

/// Answers the lines, one after the other.
fn put_lines<W: Write>(
    alloc: Global,
    seat: &AcceptorSeat,
    lines: &[&[u8]],
    out: &mut W,
) -> Result<(), PutFault>
    ensures { Writes result (W.contents out.old) (W.contents out.new) (lines_at seat.now (map (λ l. l.now) lines.now)) }
{
    // The rows of the loop are those of all the requests heard.
    protocol_laws::laws::acceptor_steps();
    let mut rows = MemoryRows::at(alloc, seat.wire);
    for line in lines {
        if !is_blank(line) {
            let text = answer_line(alloc, *seat, &mut rows, line)?;
            put_text(text, out)?;
        }
    }
    Ok(())
}

/// Answers the lines of an input, and hands all of it on.
fn put_answer<'a, W: Write>(
    alloc: Global,
    seat: &AcceptorSeat,
    input: &[u8],
    out: &mut W,
) -> Result<(), Fault<'a>>
    ensures writes { Writes result (W.contents out.old) (W.contents out.new) (answer_at seat.now input.now) }
    ensures fault { IfErr result (λ fault. IsOfInput (end_of fault)) }
{
    let lines = lines_of(alloc, input)?;
    put_lines(alloc, seat, &lines, out)?;
    hand_on(out)?;
    Ok(())
}

/// Reads the input to its end, and answers its lines, up to the first fault.
fn answered<'a, R: Read + Drop, W: Write>(
    alloc: Global,
    order: AnswerOrder<R>,
    out: &mut W,
) -> Result<(), Fault<'a>>
    ensures { AnswersInput order.seat result (R.remaining order.input) (W.contents out.old) (W.contents out.new) }
{
    let AnswerOrder { seat, mut input } = order;
    let bytes = read_text(alloc, &mut input, "-")?;
    put_answer(alloc, &seat, &bytes, out)
}

/// Answers each line of the input as one acceptor of this circuit and member, over rows that last for the run. It reads and
/// replies in this version; at version 2 it reads version 1 too.
///
/// The whole input is read before anything is written. Where memory, the reader or the writer fails,
/// a front of the text was written, and `err` has the fault. Nothing else ends it.
pub fn answer<R: Read + Drop, W: Write, E: Write>(
    alloc: Global,
    order: AnswerOrder<R>,
    out: &mut W,
    err: &mut E,
) -> End
    ensures done { result ≡ Done → WritesAnswer order.seat.circuit order.seat.me (version_of order.seat.wire)
        (R.remaining order.input) (W.contents out.old) (W.contents out.new) }
    ensures front { WritesAnswerFront order.seat.circuit order.seat.me (version_of order.seat.wire)
        (R.remaining order.input) (W.contents out.old) (W.contents out.new) }
    ensures ends { IsOfInput result }
{
    end_with(answered(alloc, order, out), err)
}
