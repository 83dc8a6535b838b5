//! The answer to a message that can't be read.

ghost use Rattle.std.specs.Prelude.{◌≡◌, IfOk};
ghost use Rattle.call_plans.specs.Endings.{unreadable};
ghost use Rattle.call_names.specs.Broken.{IsBroken};

use conn_requests::Answer;
use grpc_meta::Status;
use outside::{Blobs, Memory, Text};
use std::alloc::Global;
use write_msgs::MsgFault;

/// The status of a message that can't be read: 3 INVALID_ARGUMENT, or 12 UNIMPLEMENTED for a field that isn't served.
pub fn unreadable(alloc: Global, fault: MsgFault) -> Result<Answer, Memory>
    ensures value { IfOk result (λ answer. answer ≡ unreadable fault) }
    ensures broken { IfOk result (λ answer. IsBroken fault) }
{
    let (code, text) = match fault {
        MsgFault::Memory => return Err(Memory),
        MsgFault::BadProto { at } => (3, format!(in alloc; "malformed message at {at}")?),
        MsgFault::Unsupported { field } => (12, format!(in alloc; "unsupported field {field}")?),
        MsgFault::BadUtf8 { field } => (3, format!(in alloc; "bad text in field {field}")?),
    };
    let status = Status {
        code,
        text: Text::from_string(text),
    };
    Ok(Answer::Ends(Blobs::from_vec(Vec::new(alloc)), status))
}
