ghost use Rattle.std.specs.Prelude.{◌≡◌, ◌≤◌, ◌+◌, ℕ, All, IfOk, IfSome, List, length, map, is_some, sum_by};
ghost use Rattle.std.specs.Option.{option_map};
ghost use Rattle.proto_fields.specs.Selection.{varint_for, varints_of, payloads_of, last_of, merged_of};
ghost use Rattle.proto_fields.specs.Spans.{part, record_in, records_in, span_for, spans_of, payload_size, IsWithin};

use super::field::{Field, Value};
use outside::{Blob, Memory, Span};
use std::alloc::Global;

/// The bytes of a span of a message.
pub fn part(bytes: &[u8], span: Span) -> &[u8]
    requires { span.start + span.len ≤ length bytes.now }
    ensures { result.now ≡ part bytes.now span }
{
    &bytes[span.start as usize..][..span.len as usize]
}

/// The last varint of the fields of this number, or None where none has wire type 0.
pub fn last_varint(fields: &[Field], number: u32) -> Option<u64>
    ensures { (bytes : List ℕ) → result ≡ last_of (varints_of number (records_in bytes fields.now)) }
{
    let mut last = None;
    for field in fields {
        if let Some(varint) = varint_for(field, number) {
            last = Some(varint);
        }
    }
    last
}

/// The span of the last payload of the fields of this number, or None where none has wire type 2.
pub fn last_bytes(fields: &[Field], number: u32) -> Option<Span>
    ensures span { result ≡ last_of (spans_of number fields.now) }
    ensures bytes { (bytes : List ℕ) → option_map (part bytes) result ≡ last_of (payloads_of number (records_in bytes fields.now)) }
    ensures within { (size : ℕ) → All (IsWithin size) fields.now → IfSome result (λ s. s.start + s.len ≤ size) }
{
    let mut last = None;
    for field in fields {
        if let Some(span) = span_for(field, number) {
            last = Some(span);
        }
    }
    last
}

/// Whether a field has this number and wire type 2.
pub fn has(fields: &[Field], number: u32) -> bool
    ensures { (bytes : List ℕ) → result ≡ is_some (last_of (payloads_of number (records_in bytes fields.now))) }
{
    last_bytes(fields, number).is_some()
}

/// The spans of the payloads of all fields of this number and wire type 2, in order.
pub fn all_bytes(alloc: Global, fields: &[Field], number: u32) -> Result<Vec<Span>, Memory>
    ensures spans { IfOk result (λ all. all.items ≡ spans_of number fields.now) }
    ensures bytes { IfOk result (λ all. (bytes : List ℕ) → map (part bytes) all.items ≡ payloads_of number (records_in bytes fields.now)) }
    ensures within { IfOk result (λ all. (size : ℕ) → All (IsWithin size) fields.now → All (λ s. s.start + s.len ≤ size) all.items) }
{
    let mut all = Vec::new(alloc);
    for field in fields {
        if let Some(span) = span_for(field, number) {
            all.push(span)?;
        }
    }
    Ok(all)
}

/// The payloads of all fields of this number and wire type 2, joined in order: the bytes of a
/// message within the message. None where there is no such field.
pub fn merged(
    alloc: Global,
    bytes: &[u8],
    fields: &[Field],
    number: u32,
) -> Result<Option<Blob>, Memory>
    requires { All (IsWithin (length bytes.now)) fields.now }
    ensures bytes { IfOk result (λ found. found ≡ merged_of (payloads_of number (records_in bytes.now fields.now))) }
    ensures size { IfOk result (λ found. IfSome found (λ blob. length blob ≤ sum_by payload_size fields.now)) }
{
    let Some(size) = size_of_all(fields, number) else {
        return Ok(None);
    };
    let mut joined = Vec::with_capacity(alloc, size)?;
    for field in fields {
        if let Some(span) = span_for(field, number) {
            joined.extend_from_slice(part(bytes, span))?;
        }
    }
    Ok(Some(Blob::from_vec(joined)))
}

// The varint of the field, if it has this number and wire type 0.
fn varint_for(field: &Field, number: u32) -> Option<u64>
    ensures { (bytes : List ℕ) → result ≡ varint_for number (record_in bytes field.now) }
{
    match field.value {
        Value::Varint(varint) if field.number == number => Some(varint),
        _ => None,
    }
}

/// The span of the field, if it has this number and wire type 2.
pub fn span_for(field: &Field, number: u32) -> Option<Span>
    ensures { result ≡ span_for number field.now }
{
    match field.value {
        Value::Len(span) if field.number == number => Some(span),
        _ => None,
    }
}

// The sum of the lengths of these spans, or the greatest number that fits, and None where there is
// no span.
fn size_of_all(fields: &[Field], number: u32) -> Option<usize>
    ensures { is_some result ≡ is_some (last_of (spans_of number fields.now)) }
{
    let mut size: Option<usize> = None;
    for field in fields {
        if let Some(span) = span_for(field, number) {
            size = Some(size.unwrap_or(0).saturating_add(span.len as usize));
        }
    }
    size
}
