//! What several messages say of one of their fields.

ghost use Rattle.std.specs.Prelude.{◌≡◌, ◌≤◌, ◌<◌, ◌+◌, ◌^◌, length, map, sum_by, All, IfOk, List, [], ℕ, Ok};
ghost use Rattle.std.specs.List.{list_any};
ghost use Rattle.proto_fields.specs.Message.{fields_of};
ghost use Rattle.proto_fields.specs.Spans.{IsWithin, part, record_in, records_in, payload_size};
ghost use Rattle.write_msgs.specs.Commits.{text_item};
ghost use Rattle.write_msgs.specs.CommitParts.{timestamp_of};
ghost use Rattle.write_msgs.specs.Faults.{ReadsAs};
ghost use Rattle.write_msgs.specs.Reading.{int64_in, nested};
ghost use Rattle.write_msgs.specs.Repeated.{items_from, listed, repeated};
ghost use Rattle.read_msgs.specs.Parts.{blob_in, format_in, is_sample, unsampled};

use crate::numbers::{ARROW, DATA_FORMAT, SAMPLE_PERCENTAGE};
use outside::{Blob, Memory, Span, Text};
use proto_fields::{Field, Value, all_bytes, last_bytes, last_varint, part};
use std::alloc::Global;
use write_msgs::{
    MsgFault, Texts, Timestamp, in_nth_field, inner_message, occurrence, present, read_int32,
    with_item,
};

/// The int64 in the field of this number.
pub(crate) fn read_int64(found: &[Field], number: u32) -> i64
    ensures { (bytes : List ℕ) → result ≡ int64_in number (records_in bytes found.now) }
{
    last_varint(found, number).unwrap_or(0).cast_signed()
}

/// The bytes in the field of this number.
pub(crate) fn read_blob(
    alloc: Global,
    bytes: &[u8],
    found: &[Field],
    number: u32,
) -> Result<Blob, Memory>
    requires { All (IsWithin (length bytes.now)) found.now }
    ensures { IfOk result (λ b. b ≡ blob_in number (records_in bytes.now found.now)) }
{
    match last_bytes(found, number) {
        None => Ok(Blob::from_vec(Vec::new(alloc))),
        Some(span) => Blob::of(alloc, part(bytes, span)),
    }
}

/// The Timestamp in the field of this number, where there is one.
pub(crate) fn read_time(
    alloc: Global,
    bytes: &[u8],
    found: &[Field],
    number: u32,
) -> Result<Option<Timestamp>, MsgFault>
    requires small { length bytes.now < 2 ^ 32 }
    requires message { fields_of bytes.now ≡ Ok (records_in bytes.now found.now) }
    requires within { All (IsWithin (length bytes.now)) found.now }
    requires size { sum_by payload_size found.now ≤ length bytes.now }
    ensures { ReadsAs result (nested timestamp_of number bytes.now (records_in bytes.now found.now)) }
{
    let Some(inner) = inner_message(alloc, bytes, found, number)? else {
        return Ok(None);
    };
    present(Timestamp::decode(alloc, inner.bytes()), bytes, number)
}

/// These bytes as one of the texts in the field of this number.
fn text_of(alloc: Global, bytes: &[u8], number: u32) -> Result<Text, MsgFault>
    ensures { ReadsAs result (text_item number bytes.now) }
{
    match str::from_utf8(bytes) {
        Ok(text) => Ok(Text::of(alloc, text)?),
        Err(_) => Err(MsgFault::BadUtf8 { field: number }),
    }
}

/// The texts at these places.
fn texts_at(alloc: Global, bytes: &[u8], spans: &[Span], number: u32) -> Result<Vec<Text>, MsgFault>
    requires small { length bytes.now < 2 ^ 32 }
    requires within { All (λ s. s.start + s.len ≤ length bytes.now) spans.now }
    ensures { ReadsAs (listed result) (items_from (text_item number) 0 (map (part bytes.now) spans.now)) }
{
    let mut read = Ok(Vec::new(alloc));
    for (n, span) in spans.iter().enumerate() {
        read = with_item(read, text_of(alloc, occurrence(bytes, *span), number), n);
    }
    read
}

/// The texts in the repeated field of this number.
pub(crate) fn read_texts(
    alloc: Global,
    bytes: &[u8],
    found: &[Field],
    number: u32,
) -> Result<Texts, MsgFault>
    requires small { length bytes.now < 2 ^ 32 }
    requires message { fields_of bytes.now ≡ Ok (records_in bytes.now found.now) }
    requires within { All (IsWithin (length bytes.now)) found.now }
    ensures { ReadsAs result (repeated (text_item number) number bytes.now (records_in bytes.now found.now)) }
{
    let spans = all_bytes(alloc, found, number)?;
    match texts_at(alloc, bytes, spans.as_slice(), number) {
        Ok(texts) => Ok(Texts::from_vec(texts)),
        Err(fault) => Err(in_nth_field(fault, bytes, number)),
    }
}

/// The code of the data format, where it isn't ARROW.
pub(crate) fn read_format(found: &[Field]) -> Result<i32, MsgFault>
    ensures { (bytes : List ℕ) → result ≡ format_in (records_in bytes found.now) }
{
    let format = read_int32(found, DATA_FORMAT);
    if format == ARROW {
        return Err(MsgFault::Unsupported { field: DATA_FORMAT });
    }
    Ok(format)
}

/// Whether the field asks for a sample of the table.
fn is_sample(field: &Field) -> bool
    ensures { result ≡ is_sample (record_in [] field.now) }
{
    match field.value {
        Value::Fixed64(_) => field.number == SAMPLE_PERCENTAGE,
        _ => false,
    }
}

/// Whether one of the fields asks for a sample of the table.
fn has_sample(found: &[Field]) -> bool
    ensures { result ≡ list_any (λ field. is_sample (record_in [] field)) found.now }
{
    found.iter().any(|field| is_sample(field))
}

/// Refuses a field that asks for a sample of the table.
#[tactic(auto, using(crate::proofs::FieldLemmas::samples_are))]
pub(crate) fn refuse_sample(found: &[Field]) -> Result<(), MsgFault>
    ensures { (bytes : List ℕ) → result ≡ unsampled (records_in bytes found.now) }
{
    if has_sample(found) {
        return Err(MsgFault::Unsupported {
            field: SAMPLE_PERCENTAGE,
        });
    }
    Ok(())
}
