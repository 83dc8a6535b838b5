ghost use Rattle.std.specs.Prelude.{◌≡◌, ◌≤◌, ◌<◌, ◌^◌, ◌+◌, length, map, sum_by, IfOk, IfSome, IsOk, All};
ghost use Rattle.std.specs.Option.{option_map};
ghost use Rattle.proto_fields.specs.Message.{fields_of};
ghost use Rattle.proto_fields.specs.Selection.{merged_of, payloads_of};
ghost use Rattle.proto_fields.specs.Spans.{IsWithin, part, records_in, payload_size};
ghost use Rattle.write_msgs.specs.Inner.{bytes_of};
ghost use Rattle.write_msgs.specs.Faults.{last_place};
ghost use Rattle.write_msgs.specs.Reading.{present_at};

use crate::faults::{MsgFault, in_field};
use outside::{Blob, Memory, Span};
use proto_fields::{Field, all_bytes, merged, part};
use std::alloc::Global;

/// The bytes of a message within a message, all occurrences of its field joined.
#[derive(Drop)]
pub enum Inner<'a> {
    /// The field occurs once, so that no byte is copied.
    InPlace(&'a [u8]),
    /// The field occurs several times.
    Copied(Blob),
}

impl Inner<'_> {
    /// The bytes.
    pub fn bytes(&self) -> &[u8]
        ensures { result.now ≡ bytes_of self.now }
    {
        match self {
            Inner::InPlace(bytes) => bytes,
            Inner::Copied(blob) => blob.bytes(),
        }
    }
}

/// The message in the field of this number, where there is one.
pub fn inner_message<'a>(
    alloc: Global,
    bytes: &'a [u8],
    fields: &[Field],
    number: u32,
) -> Result<Option<Inner<'a>>, Memory>
    requires within { All (IsWithin (length bytes.now)) fields.now }
    requires size { sum_by payload_size fields.now ≤ length bytes.now }
    ensures joined { IfOk result (λ found. option_map bytes_of found ≡ merged_of (payloads_of number (records_in bytes.now fields.now))) }
    ensures size { IfOk result (λ found. IfSome found (λ inner. length (bytes_of inner) ≤ length bytes.now)) }
{
    let spans = all_bytes(alloc, fields, number)?;
    match spans.as_slice() {
        [] => Ok(None),
        [span] => Ok(Some(Inner::InPlace(part(bytes, *span)))),
        _ => match merged(alloc, bytes, fields, number)? {
            Some(blob) => Ok(Some(Inner::Copied(blob))),
            None => Ok(None),
        },
    }
}

/// What was read in the field of this number, where it is there.
pub fn present<T: Drop>(
    read: Result<T, MsgFault>,
    bytes: &[u8],
    number: u32,
) -> Result<Option<T>, MsgFault>
    requires small { length bytes.now < 2 ^ 32 }
    requires message { IsOk (fields_of bytes.now) }
    ensures { result ≡ present_at (last_place number bytes.now) read }
{
    match read {
        Ok(value) => Ok(Some(value)),
        Err(fault) => Err(in_field(fault, bytes, number)),
    }
}

/// Copies of the runs of bytes at these places.
pub(crate) fn copies(alloc: Global, bytes: &[u8], spans: &[Span]) -> Result<Vec<Blob>, Memory>
    requires { All (λ s. s.start + s.len ≤ length bytes.now) spans.now }
    ensures { IfOk result (λ all. all.items ≡ map (part bytes.now) spans.now) }
{
    let mut all = Vec::with_capacity(alloc, spans.len())?;
    for span in spans {
        all.push(Blob::of(alloc, part(bytes, *span))?)?;
    }
    Ok(all)
}
