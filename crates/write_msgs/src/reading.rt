ghost use Rattle.std.specs.Prelude.{◌≡◌, ◌≤◌, ◌<◌, ◌^◌, length, sum_by, All, List, ℕ, Some, Ok};
ghost use Rattle.proto_fields.specs.Message.{fields_of};
ghost use Rattle.proto_fields.specs.Selection.{last_of, payloads_of};
ghost use Rattle.proto_fields.specs.Spans.{IsWithin, records_in, payload_size};
ghost use Rattle.write_msgs.specs.Faults.{ReadsAs};
ghost use Rattle.write_msgs.specs.Reading.{text_from, text_in, int64_in, int32_in, without, nested};
ghost use Rattle.write_msgs.specs.Request.{int64_value_of};

use crate::faults::MsgFault;
use crate::nested::{inner_message, present};
use crate::numbers::VALUE;
use outside::Text;
use proto_fields::{Field, fields, has, last_bytes, last_varint, part};
use std::alloc::Global;

/// These bytes as the text in the field of this number.
pub(crate) fn text_of(alloc: Global, bytes: &[u8], number: u32) -> Result<Text, MsgFault>
    ensures { ReadsAs result (text_from number (Some bytes.now)) }
{
    match str::from_utf8(bytes) {
        Ok(text) => Ok(Text::of(alloc, text)?),
        Err(_) => Err(MsgFault::BadUtf8 { field: number }),
    }
}

/// The text in the field of this number.
pub fn read_text(
    alloc: Global,
    bytes: &[u8],
    found: &[Field],
    number: u32,
) -> Result<Text, MsgFault>
    requires { All (IsWithin (length bytes.now)) found.now }
    ensures { ReadsAs result (text_in number (records_in bytes.now found.now)) }
{
    match last_bytes(found, number) {
        None => Ok(Text::from_string(String::new(alloc))),
        Some(span) => text_of(alloc, part(bytes, span), number),
    }
}

/// The int64 in the field of this number.
pub(crate) fn read_int64(found: &[Field], number: u32) -> i64
    ensures { (bytes : List ℕ) → result ≡ int64_in number (records_in bytes found.now) }
{
    last_varint(found, number).unwrap_or(0).cast_signed()
}

/// The int32 in the field of this number.
pub fn read_int32(found: &[Field], number: u32) -> i32
    ensures { (bytes : List ℕ) → result ≡ int32_in number (records_in bytes found.now) }
{
    let low = last_varint(found, number).unwrap_or(0) % (1 << 32);
    (low as u32).cast_signed()
}

/// Refuses a field that is not served.
pub(crate) fn refuse(found: &[Field], number: u32) -> Result<(), MsgFault>
    ensures { (bytes : List ℕ) → result ≡ without number (records_in bytes found.now) }
{
    if has(found, number) {
        return Err(MsgFault::Unsupported { field: number });
    }
    Ok(())
}

/// An Int64Value.
#[tactic(auto, unfolding(crate::specs::Request::int64_value_of))]
pub(crate) fn int64_value(alloc: Global, bytes: &[u8]) -> Result<i64, MsgFault>
    requires { length bytes.now < 2 ^ 32 }
    ensures { ReadsAs result (int64_value_of bytes.now) }
{
    let found = fields(alloc, bytes)?;
    Ok(read_int64(found.as_slice(), VALUE))
}

/// The Int64Value in the field of this number, where there is one.
pub(crate) fn read_wrapped(
    alloc: Global,
    bytes: &[u8],
    found: &[Field],
    number: u32,
) -> Result<Option<i64>, MsgFault>
    requires small { length bytes.now < 2 ^ 32 }
    requires message { fields_of bytes.now ≡ Ok (records_in bytes.now found.now) }
    requires within { All (IsWithin (length bytes.now)) found.now }
    requires size { sum_by payload_size found.now ≤ length bytes.now }
    ensures { ReadsAs result (nested int64_value_of number bytes.now (records_in bytes.now found.now)) }
{
    let Some(inner) = inner_message(alloc, bytes, found, number)? else {
        return Ok(None);
    };
    present(int64_value(alloc, inner.bytes()), bytes, number)
}
