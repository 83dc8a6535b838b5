ghost use Rattle.std.specs.Prelude.{◌≡◌, IsOk, ◌<◌, ◌^◌, length};
ghost use Rattle.proto_fields.specs.Message.{fields_of};
ghost use Rattle.write_msgs.specs.Faults.{least, both, last_place, at_place, message_fault};

use outside::Memory;
use proto_fields::{FieldFault, last_tag};
use thiserror::Error;

/// Why a message could not be read. Of several faults the first variant in this order counts, and
/// of one variant the least place or number, over all messages within the message.
#[derive(Clone, Copy, Debug, PartialEq, Eq, Error)]
pub enum MsgFault {
    /// An allocation was refused.
    #[error("out of memory")]
    Memory,
    /// The bytes, or those of a message within the message, are no message of Protocol Buffers: `at`
    /// is the place of the tag of the first field that can't be read. Where it lies in a message
    /// within the message, `at` is the place of the tag of the outermost field; of a field that has
    /// one value, the last such tag. Fields of the message itself that can't be read come first.
    #[error("bad field at {at}")]
    BadProto { at: usize },
    /// A field of this number is there that is not served.
    #[error("unsupported field {field}")]
    Unsupported { field: u32 },
    /// The text that counts in the field of this number is not UTF-8.
    #[error("field {field} is not UTF-8")]
    BadUtf8 { field: u32 },
}

impl From<Memory> for MsgFault {
    ghost use Rattle.std.specs.Prelude.{◌≡◌};
    ghost use Rattle.write_msgs.specs.declared.faults.MsgFault.TheVariants as fault;

    ghost from_gives = { λ _ e. e ≡ fault.Memory };

    fn from(_want: Memory) -> MsgFault {
        MsgFault::Memory
    }
}

impl From<FieldFault> for MsgFault {
    ghost use Rattle.std.specs.Prelude.{◌≡◌};
    ghost use Rattle.write_msgs.specs.Faults.{message_fault};

    ghost from_gives = { λ f e. e ≡ message_fault f };

    fn from(fault: FieldFault) -> MsgFault {
        match fault {
            FieldFault::Memory => MsgFault::Memory,
            FieldFault::BadProto { at } => MsgFault::BadProto { at },
        }
    }
}

/// The one of two faults that counts.
fn least(a: MsgFault, b: MsgFault) -> MsgFault
    ensures { result ≡ least a b }
{
    match (a, b) {
        (MsgFault::Memory, _) | (_, MsgFault::Memory) => MsgFault::Memory,
        (MsgFault::BadProto { at: x }, MsgFault::BadProto { at: y }) => {
            MsgFault::BadProto { at: x.min(y) }
        }
        (MsgFault::BadProto { .. }, _) => a,
        (_, MsgFault::BadProto { .. }) => b,
        (MsgFault::Unsupported { field: x }, MsgFault::Unsupported { field: y }) => {
            MsgFault::Unsupported { field: x.min(y) }
        }
        (MsgFault::Unsupported { .. }, _) => a,
        (_, MsgFault::Unsupported { .. }) => b,
        (MsgFault::BadUtf8 { field: x }, MsgFault::BadUtf8 { field: y }) => {
            MsgFault::BadUtf8 { field: x.min(y) }
        }
    }
}

/// Both of two parts of a message, or the fault that counts.
pub fn both<A: Drop, B: Drop>(
    a: Result<A, MsgFault>,
    b: Result<B, MsgFault>,
) -> Result<(A, B), MsgFault>
    ensures { result ≡ both a b }
{
    match (a, b) {
        (Ok(x), Ok(y)) => Ok((x, y)),
        (Ok(_), Err(fault)) | (Err(fault), Ok(_)) => Err(fault),
        (Err(x), Err(y)) => Err(least(x, y)),
    }
}

/// A fault of the message within the message in the field of this number.
pub(crate) fn in_field(fault: MsgFault, bytes: &[u8], number: u32) -> MsgFault
    requires small { length bytes.now < 2 ^ 32 }
    requires message { IsOk (fields_of bytes.now) }
    ensures { result ≡ at_place (last_place number bytes.now) fault }
{
    match fault {
        MsgFault::BadProto { .. } => MsgFault::BadProto {
            at: last_tag(bytes, number).unwrap_or(0),
        },
        other => other,
    }
}
