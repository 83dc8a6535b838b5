//! What the end of a call is answered.

ghost use Rattle.std.specs.Prelude.{◌≡◌, IfOk};
ghost use Rattle.conn_requests.specs.Ends.{over_of, status_only, end_answer, lost_answer};

use crate::answers::{Answer, HttpStatus};
use crate::asks::Over;
use grpc_meta::{MetaFault, Status};
use outside::{Blobs, Memory, Text};
use std::alloc::Global;

/// How a request ends whose header fields name no method. A malformed one is reset by the connection and is no event.
pub fn over_of(fault: MetaFault) -> Option<Over>
    ensures { result ≡ over_of fault }
{
    match fault {
        MetaFault::Malformed => None,
        MetaFault::NotPost => Some(Over::NotPost),
        MetaFault::NotGrpc => Some(Over::NotGrpc),
        MetaFault::UnknownPath => Some(Over::UnknownMethod),
    }
}

/// The status alone.
fn status_only(alloc: Global, code: u32, text: &str) -> Result<Answer, Memory>
    ensures { IfOk result (λ answer. answer ≡ status_only code text.now) }
{
    let status = Status {
        code,
        text: Text::of(alloc, text)?,
    };
    Ok(Answer::Ends(Blobs::from_vec(Vec::new(alloc)), status))
}

/// The answer to a call for which memory is wanting: status 14, UNAVAILABLE.
pub fn lost(alloc: Global) -> Result<Answer, Memory>
    ensures { IfOk result (λ answer. answer ≡ lost_answer) }
{
    status_only(alloc, 14, "out of memory")
}

impl Over {
    /// The answer to this end: its status, or the status of HTTP.
    pub fn answer(self, alloc: Global) -> Result<Answer, Memory>
        ensures { IfOk result (λ answer. answer ≡ end_answer self) }
    {
        match self {
            Over::Finished => status_only(alloc, 0, ""),
            Over::CutShort => status_only(alloc, 3, "message cut short"),
            Over::OneWanted => status_only(alloc, 3, "one message wanted"),
            Over::TooLong => status_only(alloc, 8, "message too long"),
            Over::Compressed => status_only(alloc, 13, "compressed message"),
            Over::Coded => status_only(alloc, 12, "compressed message"),
            Over::UnknownMethod => status_only(alloc, 12, "unknown method"),
            Over::NotPost => Ok(Answer::Http(HttpStatus::MethodNotAllowed)),
            Over::NotGrpc => Ok(Answer::Http(HttpStatus::UnsupportedMediaType)),
            Over::ListTooLarge => Ok(Answer::Http(HttpStatus::FieldsTooLarge)),
        }
    }
}
