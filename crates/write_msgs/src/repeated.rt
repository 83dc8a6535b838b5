//! Messages that occur several times within a message.

ghost use Rattle.std.specs.Prelude.{◌≡◌, ◌≤◌, ◌<◌, ◌+◌, ◌^◌, length, IsOk, List, Result};
ghost use Rattle.proto_fields.specs.Message.{fields_of};
ghost use Rattle.proto_fields.specs.Spans.{part};
ghost use Rattle.write_msgs.specs.declared.faults.MsgFault.{MsgFault};
ghost use Rattle.write_msgs.specs.Faults.{ReadsAs, both};
ghost use Rattle.write_msgs.specs.Repeated.{located, listed, with_last, at_nth};

use crate::faults::{MsgFault, both};
use outside::Span;
use proto_fields::{nth_tag, part};

/// What was read of the nth occurrence of a field, with its number in the place of a place.
pub fn located<T: Drop>(read: Result<T, MsgFault>, n: usize) -> Result<T, MsgFault>
    ensures { result ≡ located n read }
{
    match read {
        Err(MsgFault::BadProto { .. }) => Err(MsgFault::BadProto { at: n }),
        other => other,
    }
}

/// The items so far with the nth, or the fault that counts.
pub fn with_item<T: Drop>(
    so_far: Result<Vec<T>, MsgFault>,
    read: Result<T, MsgFault>,
    n: usize,
) -> Result<Vec<T>, MsgFault>
    ensures { (before : Result (List T) MsgFault) (item : Result T MsgFault) → ReadsAs (listed so_far) before → ReadsAs read item → ReadsAs (listed result) (with_last (both before (located n item))) }
{
    match both(so_far, located(read, n)) {
        Ok((mut items, item)) => match items.push(item) {
            Ok(()) => Ok(items),
            Err(_) => Err(MsgFault::Memory),
        },
        Err(fault) => Err(fault),
    }
}

/// A fault of the items in the field of this number.
pub fn in_nth_field(fault: MsgFault, bytes: &[u8], number: u32) -> MsgFault
    requires small { length bytes.now < 2 ^ 32 }
    requires message { IsOk (fields_of bytes.now) }
    ensures { result ≡ at_nth number bytes.now fault }
{
    match fault {
        MsgFault::BadProto { at } => MsgFault::BadProto {
            at: nth_tag(bytes, number, at).unwrap_or(0),
        },
        other => other,
    }
}

/// The bytes of one occurrence.
pub fn occurrence(bytes: &[u8], span: Span) -> &[u8]
    requires { span.start + span.len ≤ length bytes.now }
    ensures bytes { result.now ≡ part bytes.now span }
    ensures size { length result.now ≤ length bytes.now }
{
    part(bytes, span)
}
