//! ReadRows, with all responses at once.

ghost use Rattle.std.specs.Prelude.{◌≡◌, ◌<◌, ◌^◌, length, [], IfOk, OnErr};
ghost use Rattle.open_tables.specs.Tables.{AreTheirs, specs_of};
ghost use Rattle.open_tables.specs.Plans.{Gets, Loses};
ghost use Rattle.call_plans.specs.Reading.{read_plan};
ghost use Rattle.call_read.specs.Items.{told_items};
ghost use Rattle.conn_requests.specs.declared.answers.Answer.TheVariants as answers;

use crate::answers::status_for;
use crate::bodies::{RowsAnswer, rows};
use conn_requests::Answer;
use futures::Stream;
use futures::task::{Context, Poll};
use grpc_meta::Status;
use open_tables::{Passes, Tables};
use outside::{Blobs, Memory, Text};
use rows_body::{Hand, RowsBody, RowsEnd};
use std::alloc::Global;
use std::sync::Wait;
use table_model::Why;

/// Messages and status 0.
fn given(alloc: Global, messages: Blobs) -> Result<Answer, Memory>
    ensures { IfOk result (λ answer. answer ≡ answers.Ends messages (record { code = 0; text = [] })) }
{
    let status = Status {
        code: 0,
        text: Text::of(alloc, "")?,
    };
    Ok(Answer::Ends(messages, status))
}

/// What a body's items come to, by polling it until its end.
fn polled(alloc: Global, body: &mut RowsBody<'_>, cx: &mut Context<'_>) -> Result<Answer, Memory>
    requires { 0 < body.old.room }
    ensures { IfOk result (λ answer. answer ≡ told_items body.old.left) }
{
    let mut messages = Vec::new(alloc);
    loop {
        match body.poll_next(cx) {
            Poll::Ready(Some(Ok(message))) => messages.push(message)?,
            Poll::Ready(Some(Err(RowsEnd::PastEnd { matched: _ }))) => {
                let status = status_for(alloc, Why::PastEnd)?;
                return Ok(Answer::Ends(Blobs::from_vec(messages), status));
            }
            Poll::Ready(Some(Err(RowsEnd::Memory))) => return Err(Memory),
            Poll::Ready(None) => return given(alloc, Blobs::from_vec(messages)),
            Poll::Pending => unreachable!(),
        }
    }
}

/// What a body's items come to, with room for each of them.
fn whole<R: Wait>(rt: &R, alloc: Global, mut body: RowsBody<'_>) -> Result<Answer, Memory>
    ensures { IfOk result (λ answer. answer ≡ told_items body.entry.left) }
{
    let hand = Hand::new(alloc)?;
    let mut cx = hand.begin(rt)?;
    body.set_room(u64::MAX);
    let answer = polled(alloc, &mut body, &mut cx);
    cx.cancel();
    answer
}

/// Answers ReadRows by its plan, with all responses at once, as [`rows`] does one by one.
///
/// Refused as by [`rows`], and by `PastEnd` where the offset exceeds the number of matching rows.
///
/// At want of memory the answer is lost.
pub fn read<R: Wait>(
    tables: &Tables,
    rt: &R,
    alloc: Global,
    passes: Passes,
    message: &[u8],
    now: i64,
) -> (Passes, Result<Answer, Memory>)
    requires small { length message.now < 2 ^ 32 }
    requires theirs { AreTheirs tables.now passes }
    ensures theirs { AreTheirs tables.now result.0 }
    ensures gets { IfOk result.1 (λ answer. Gets passes (read_plan (specs_of tables.now) message.now) now answer result.0) }
    ensures loses { OnErr result.1 (Loses passes (read_plan (specs_of tables.now) message.now) now result.0) }
{
    let (passes, answer) = rows(tables, rt, alloc, passes, message, now);
    match answer {
        Ok(RowsAnswer::Body(body)) => (passes, whole(rt, alloc, body)),
        Ok(RowsAnswer::End(answer)) => (passes, Ok(answer)),
        Err(memory) => (passes, Err(memory)),
    }
}
