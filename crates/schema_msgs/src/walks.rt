//! Reading a field with all fields within it, however deep they nest, over a vector of the messages
//! that wait to be read.

ghost use Rattle.std.specs.Prelude.{◌≡◌, ◌≤◌, ◌<◌, ◌+◌, ◌^◌, [], ◌∷◌, ◌++◌, length, map, All, IfOk, OnOk};
ghost use Rattle.proto_fields.specs.Spans.{IsWithin, part, records_in};
ghost use Rattle.write_msgs.specs.Faults.{ReadsAs};
ghost use Rattle.write_msgs.specs.Repeated.{located, listed};
ghost use Rattle.schema_msgs.specs.Schema.{table_field_schema_of};
ghost use Rattle.schema_msgs.specs.Walk.{inside, laid, message_in, order, own_in, own_of, within_of};

use crate::nested_fields::NestedField;
use crate::numbers::{COLUMN_TYPE, FIELD_NAME, FIELDS, MODE};
use outside::{Memory, Span};
use proto_fields::{Field, FieldFault, all_bytes, fields, part};
use std::alloc::Global;
use write_msgs::{MsgFault, read_int32, read_text, with_item};

/// A TableFieldSchema that waits to be read.
#[derive(Drop)]
pub(crate) struct Waiting<'a> {
    /// How many fields it lies within.
    depth: u32,
    message: &'a [u8],
}

/// A field without those within it.
fn own_field(
    alloc: Global,
    depth: u32,
    message: &[u8],
    found: &[Field],
) -> Result<NestedField, MsgFault>
    requires { All (IsWithin (length message.now)) found.now }
    ensures { ReadsAs result (own_in depth (records_in message.now found.now)) }
{
    let name = read_text(alloc, message, found, FIELD_NAME)?;
    Ok(NestedField {
        depth,
        name,
        column_type: read_int32(found, COLUMN_TYPE),
        mode: read_int32(found, MODE),
    })
}

/// Lets the messages at these places of a message wait: the first is to be read first.
fn await_all<'a>(
    waiting: &mut Vec<Waiting<'a>>,
    depth: u32,
    message: &'a [u8],
    places: Vec<Span>,
) -> Result<(), Memory>
    requires within { All (λ s. s.start + s.len ≤ length message.now) places.items }
    requires deep { depth + length places.items < 2 ^ 32 }
    ensures { OnOk result (order waiting.new.items ≡ map (λ s. inside (depth + 1) (part message.now s)) places.items ++ order waiting.old.items) }
{
    let mut places = places;
    while let Some(place) = places.pop() {
        waiting.push(Waiting {
            depth: depth + 1,
            message: part(message, place),
        })?;
    }
    Ok(())
}

/// Reads one message but for those within it, which wait from then on.
fn open<'a>(
    alloc: Global,
    waiting: &mut Vec<Waiting<'a>>,
    next: Waiting<'a>,
) -> Result<Result<NestedField, MsgFault>, Memory>
    requires { next.depth + length next.message.now < 2 ^ 32 }
    ensures own { IfOk result (λ own. ReadsAs own (own_of (message_in next.entry))) }
    ensures within { OnOk result (order waiting.new.items ≡ within_of (message_in next.entry) ++ order waiting.old.items) }
{
    let found = match fields(alloc, next.message) {
        Ok(found) => found,
        Err(FieldFault::Memory) => return Err(Memory),
        Err(FieldFault::BadProto { .. }) => return Ok(Err(MsgFault::BadProto { at: 0 })),
    };
    let places = all_bytes(alloc, found.as_slice(), FIELDS)?;
    await_all(waiting, next.depth, next.message, places)?;
    Ok(own_field(alloc, next.depth, next.message, found.as_slice()))
}

/// The outermost message, which waits alone.
fn outermost(alloc: Global, message: &[u8]) -> Result<Vec<Waiting<'_>>, Memory>
    ensures { IfOk result (λ waiting. order waiting.items ≡ inside 0 message.now ∷ []) }
{
    let mut waiting = Vec::new(alloc);
    waiting.push(Waiting { depth: 0, message })?;
    Ok(waiting)
}

/// A field with all fields within it, in the order of their outline. A fault in a message is told
/// with no place.
pub(crate) fn read_nested(alloc: Global, bytes: &[u8]) -> Result<Vec<NestedField>, MsgFault>
    requires { length bytes.now < 2 ^ 32 }
    ensures { ReadsAs (listed result) (laid 0 (located 0 (table_field_schema_of bytes.now))) }
{
    let mut waiting = outermost(alloc, bytes)?;
    let mut read = Ok(Vec::new(alloc));
    while let Some(next) = waiting.pop() {
        let own = open(alloc, &mut waiting, next)?;
        read = with_item(read, own, 0);
    }
    read
}
