ghost use Rattle.std.specs.Prelude.{◌≡◌, ◌<◌, ◌≤◌, ◌^◌, length};
ghost use Rattle.grpc_frame.specs.Messages.{IsWithin};
ghost use Rattle.grpc_frame.specs.Frame.{frame};
ghost use Rattle.outside.specs.Faults.{Rose};
ghost use Rattle.grpc_frame.specs.declared.limits.TheConstants.{MESSAGE_LIMIT};
ghost use Rattle.call_body.specs.Steps.{StepsTo, StepCause, WritesAll, RepliesOne};

use crate::answering::{Answer, Answers};
use grpc_frame::{Deframer, Part, frame_message};
use outside::{Sink, SinkWrite};
use std::alloc::Global;

/// How answering the messages held came to its end.
#[derive(Clone, Copy)]
pub(crate) enum Step {
    /// All of them were answered.
    Went,
    /// The next one stops the body.
    Refused,
    /// The sink met a fault.
    Outside,
    /// Want of memory.
    Memory,
}

/// Writes all bytes. False where the sink met a fault behind the first of them; its count of faults then rose.
pub fn write_all<O: Sink>(out: &mut O, bytes: &[u8]) -> bool
    ensures { WritesAll (O.taken out.old) (O.taken out.new) (O.faults out.old) (O.faults out.new) bytes.now result }
{
    let mut rest = bytes;
    while !rest.is_empty() {
        match out.write(rest) {
            SinkWrite::Took(n) => rest = &rest[n..],
            SinkWrite::Failed => return false,
        }
    }
    true
}

/// Answers one message, and writes its framed reply.
fn answer_message<A: Answers, O: Sink>(
    alloc: Global,
    answers: &mut A,
    message: &[u8],
    out: &mut O,
) -> Step
    requires { length message.now < 2 ^ 32 }
    ensures one { RepliesOne A.readable A.answers message.now answers.old answers.new (O.taken out.old) (O.taken out.new) result }
    ensures cause { StepCause (O.faults out.old) (O.faults out.new) result }
{
    let reply = match answers.answer(alloc, message) {
        Answer::Reply(reply) => reply,
        Answer::Unreadable => return Step::Refused,
        Answer::Memory => return Step::Memory,
    };
    match frame_message(alloc, reply.bytes()) {
        Ok(framed) => {
            if write_all(out, framed.bytes()) {
                Step::Went
            } else {
                Step::Outside
            }
        }
        Err(_) => Step::Memory,
    }
}

/// Answers the whole messages that are held, one after another.
pub(crate) fn answer_held<A: Answers, O: Sink>(
    alloc: Global,
    deframer: &mut Deframer,
    answers: &mut A,
    out: &mut O,
) -> Step
    requires { deframer.old.limit ≡ MESSAGE_LIMIT }
    ensures limit { deframer.new.limit ≡ deframer.old.limit }
    ensures steps { StepsTo A.readable A.answers deframer.old.bytes deframer.new.bytes answers.old answers.new
        (O.taken out.old) (O.taken out.new) result }
    ensures cause { StepCause (O.faults out.old) (O.faults out.new) result }
{
    loop {
        match deframer.next(alloc) {
            Ok(Part::Message(message)) => {
                match answer_message(alloc, answers, message.bytes(), out) {
                    Step::Went => {}
                    Step::Refused => return Step::Refused,
                    Step::Outside => return Step::Outside,
                    Step::Memory => return Step::Memory,
                }
            }
            Ok(Part::More) => return Step::Went,
            Ok(Part::Compressed { .. } | Part::TooLong { .. }) => return Step::Refused,
            Err(_) => return Step::Memory,
        }
    }
}
