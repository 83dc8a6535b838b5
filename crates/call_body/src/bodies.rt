ghost use Rattle.std.specs.Prelude.{◌≡◌, ◌+◌, ◌<◌, List, ℕ, IfSome, length};
ghost use Rattle.outside.specs.Faults.{Rose};
ghost use Rattle.call_body.specs.declared.limits.TheConstants.{BODY_LIMIT};
ghost use Rattle.call_body.specs.Ends.{EndsAs, Writes, ReadsAll, TakesAtMost, HasCause, IsGoodBody, IsDoneOrMemory};

use crate::answering::Answers;
use crate::ends::BodyEnd;
use crate::limits::{BODY_LIMIT, PIECE_LEN};
use crate::pieces::{Fed, buffer, feed_piece};
use crate::replies::{Step, answer_held};
use grpc_frame::{Deframer, MESSAGE_LIMIT};
use outside::{Sink, Source};
use std::alloc::Global;

/// Reads pieces of the body and answers the messages in them, until it ends.
fn read_body<A: Answers, I: Source, O: Sink>(
    alloc: Global,
    buffer: &mut [u8],
    answers: &mut A,
    input: &mut I,
    out: &mut O,
) -> BodyEnd
    requires { 0 < length buffer.old }
    ensures ending { (replied : List ℕ) × Writes (O.taken out.old) (O.taken out.new) replied result
        × IfSome (I.left input.old) (λ bytes. EndsAs A.readable A.answers bytes replied answers.old answers.new result) }
    ensures cause { HasCause (I.faults input.old) (I.faults input.new) (O.faults out.old) (O.faults out.new) result }
    ensures read { ReadsAll (I.left input.old) (I.left input.new) result }
    ensures takes { TakesAtMost (BODY_LIMIT + 1) (I.left input.old) (I.left input.new) }
{
    let mut deframer = Deframer::new(alloc, MESSAGE_LIMIT);
    let mut read: usize = 0;
    while read <= BODY_LIMIT {
        match feed_piece(alloc, input, buffer, &mut deframer, BODY_LIMIT - read) {
            Fed::Bytes(n) => read += n,
            Fed::End if deframer.inside() => return BodyEnd::Cut,
            Fed::End => return BodyEnd::Done,
            Fed::Outside => return BodyEnd::Outside,
            Fed::Memory => return BodyEnd::Memory,
        }
        match answer_held(alloc, &mut deframer, answers, out) {
            Step::Went => {}
            Step::Refused => return BodyEnd::Refused,
            Step::Outside => return BodyEnd::Outside,
            Step::Memory => return BodyEnd::Memory,
        }
    }
    BodyEnd::Long
}

/// Reads a body from `input`, answers its messages one after another, and writes the framed replies
/// to `out`. It reads at most [`BODY_LIMIT`] bytes and one more.
///
/// `Refused`, `Cut`, `Long` and `Outside` come in the order in which the bytes do. The replies to
/// what stands before an end are written.
pub fn answer_body<A: Answers, I: Source, O: Sink>(
    alloc: Global,
    answers: &mut A,
    input: &mut I,
    out: &mut O,
) -> BodyEnd
    ensures ending { (replied : List ℕ) × Writes (O.taken out.old) (O.taken out.new) replied result
        × IfSome (I.left input.old) (λ bytes. EndsAs A.readable A.answers bytes replied answers.old answers.new result) }
    ensures cause { HasCause (I.faults input.old) (I.faults input.new) (O.faults out.old) (O.faults out.new) result }
    ensures read { ReadsAll (I.left input.old) (I.left input.new) result }
    ensures takes { TakesAtMost (BODY_LIMIT + 1) (I.left input.old) (I.left input.new) }
    ensures complete { IfSome (I.left input.old) (λ bytes. IsGoodBody A.readable bytes
        → (Rose (I.faults input.old) (I.faults input.new) → ⊥)
        → (Rose (O.faults out.old) (O.faults out.new) → ⊥) → IsDoneOrMemory result) }
{
    match buffer(alloc, PIECE_LEN) {
        Ok(mut buffer) => read_body(alloc, buffer.as_mut_slice(), answers, input, out),
        Err(_) => BodyEnd::Memory,
    }
}
