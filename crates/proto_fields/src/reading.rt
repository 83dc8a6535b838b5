ghost use Rattle.std.specs.Prelude.{◌≡◌, ◌+◌, ◌<◌, ◌≤◌, ◌^◌, All, IfOk, IfSome, length, drop, sum_by};
ghost use Rattle.proto_fields.specs.Chain.{Gives};
ghost use Rattle.proto_fields.specs.Record.{record_at};
ghost use Rattle.proto_fields.specs.Message.{fields_of, placed_of};
ghost use Rattle.proto_fields.specs.Spans.{payload_in, record_in, records_in, value_at, located_fields, IsWithin, payload_size, ReadsMessage};
ghost use Rattle.proto_fields.specs.Raw.{payload_of, raw_size};

use super::faults::FieldFault;
use super::field::{Field, Value};
use super::payloads::{Raw, record_at};
use outside::Span;
use std::alloc::Global;

/// The fields of a message, in order.
///
/// It fails with `BadProto` exactly where the bytes are no message: `at` is then the place of the
/// first byte of the first field that can't be read. Payloads aren't copied, and how deep messages
/// nest in them doesn't matter.
pub fn fields(alloc: Global, bytes: &[u8]) -> Result<Vec<Field>, FieldFault>
    requires { length bytes.now < 2 ^ 32 }
    ensures exact { ReadsMessage (λ found. records_in bytes.now found.items) result (fields_of bytes.now) }
    ensures located { ReadsMessage (λ found. found.items) result (located_fields (placed_of bytes.now)) }
    ensures within { IfOk result (λ found. All (IsWithin (length bytes.now)) found.items) }
    ensures size { IfOk result (λ found. sum_by payload_size found.items ≤ length bytes.now) }
{
    let mut found = Vec::new(alloc);
    let mut at = 0;
    while at < bytes.len() {
        let Some((field, next)) = field_at(bytes, at) else {
            return Err(FieldFault::BadProto { at });
        };
        found.push(field)?;
        at = next;
    }
    Ok(found)
}

/// The field whose tag begins at a place of the message, and the place behind it.
pub fn field_at(bytes: &[u8], at: usize) -> Option<(Field, usize)>
    requires small { length bytes.now < 2 ^ 32 }
    requires inside { at < length bytes.now }
    ensures read { Gives (λ x. (record_in bytes.now x.0, drop x.1 bytes.now)) result (record_at (drop at bytes.now)) }
    ensures next { IfSome result (λ x. (at + payload_size x.0 < x.1) × (x.1 ≤ length bytes.now)) }
    ensures within { IfSome result (λ x. IsWithin (length bytes.now) x.0) }
    ensures value { IfSome result (λ x. x.0.value ≡ value_at (payload_in bytes.now x.0.value) x.1) }
{
    let (number, raw, rest) = record_at(&bytes[at..])?;
    let next = bytes.len() - rest.len();
    let value = value_before(raw, next);
    Some((Field { number, value }, next))
}

// The payload that ends at a place of its message, as a value.
fn value_before(raw: Raw<'_>, end: usize) -> Value
    requires small { end < 2 ^ 32 }
    requires inside { raw_size raw ≤ end }
    ensures { result ≡ value_at (payload_of raw.entry) end }
{
    match raw {
        Raw::Varint(number) => Value::Varint(number),
        Raw::Fixed64(number) => Value::Fixed64(number),
        Raw::Len(payload) => Value::Len(Span {
            start: (end - payload.len()) as u32,
            len: payload.len() as u32,
        }),
        Raw::Fixed32(number) => Value::Fixed32(number),
    }
}
