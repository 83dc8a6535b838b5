//! The answers that end a call of one message.

ghost use Rattle.std.specs.Prelude.{◌≡◌, IfOk};
ghost use Rattle.call_plans.specs.Endings.{refusal_answer, refused_for, responded};
ghost use Rattle.call_read.specs.Items.{status_for};

use call_append::cause_text;
use conn_requests::Answer;
use grpc_meta::Status;
use outside::{Blob, Blobs, Memory, Text};
use std::alloc::Global;
use table_model::{Refusal, Why};

/// The status of a refusal.
pub(crate) fn refusal_answer(alloc: Global, refusal: &Refusal) -> Result<Answer, Memory>
    ensures { IfOk result (λ answer. answer ≡ refusal_answer refusal.now) }
{
    let text = cause_text(alloc, &refusal.why)?;
    let status = Status {
        code: refusal.code,
        text,
    };
    Ok(Answer::Ends(Blobs::from_vec(Vec::new(alloc)), status))
}

/// The status of a cause, to stand behind responses.
pub(crate) fn status_for(alloc: Global, cause: Why) -> Result<Status, Memory>
    ensures { IfOk result (λ status. status ≡ status_for cause) }
{
    let refusal = Refusal::of(cause);
    let text = cause_text(alloc, &refusal.why)?;
    Ok(Status {
        code: refusal.code,
        text,
    })
}

/// The status of a cause.
pub(crate) fn refused_for(alloc: Global, cause: Why) -> Result<Answer, Memory>
    ensures { IfOk result (λ answer. answer ≡ refused_for cause) }
{
    let refusal = Refusal::of(cause);
    refusal_answer(alloc, &refusal)
}

/// One message and status 0.
pub(crate) fn responded(alloc: Global, message: Blob) -> Result<Answer, Memory>
    ensures { IfOk result (λ answer. answer ≡ responded message) }
{
    let mut messages = Vec::with_capacity(alloc, 1)?;
    messages.push(message)?;
    let status = Status {
        code: 0,
        text: Text::of(alloc, "")?,
    };
    Ok(Answer::Ends(Blobs::from_vec(messages), status))
}
