//! The answers to messages.

ghost use Rattle.std.specs.Prelude.{◌≡◌, IfOk};
ghost use Rattle.call_plans.specs.Appending.{refused_to, response_to};

use call_append::refused;
use conn_requests::Answer;
use outside::{Memory, Text};
use std::alloc::Global;
use table_model::Why;
use write_msgs::{AppendRowsRequest, AppendRowsResponse};

/// A response, which carries the write stream that the message itself names.
pub(crate) fn response_to(
    alloc: Global,
    request: &AppendRowsRequest,
    mut response: AppendRowsResponse,
) -> Result<Answer, Memory>
    ensures { IfOk result (λ answer. answer ≡ response_to request.now response) }
{
    response.write_stream = Text::of(alloc, request.write_stream.text())?;
    Ok(Answer::Goes(response.encode(alloc)?))
}

/// The response to a message that is refused before there is a table.
pub(crate) fn refused_to(
    alloc: Global,
    request: &AppendRowsRequest,
    cause: Why,
) -> Result<Answer, Memory>
    ensures { IfOk result (λ answer. answer ≡ refused_to request.now cause) }
{
    let response = refused(alloc, &[], &cause, &[])?;
    response_to(alloc, request, response)
}
