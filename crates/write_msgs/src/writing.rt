ghost use Rattle.std.specs.Prelude.{◌≡◌, ◌≤◌, ◌++◌, IfOk, OnOk};
ghost use Rattle.std.specs.Option.{option_map};
ghost use Rattle.proto_fields.specs.Message.{message_of};
ghost use Rattle.write_msgs.specs.Writing.{text_field, varint_field, int_field, message_field};
ghost use Rattle.write_msgs.specs.RequestBytes.{int64_value_bytes};

use crate::numbers::VALUE;
use outside::{Blob, Memory, Text};
use proto_fields::Out;
use std::alloc::Global;

/// Writes a text, unless it is empty.
pub fn put_text(alloc: Global, out: &mut Out, number: u32, text: &Text) -> Result<(), Memory>
    requires low { 1 ≤ number }
    requires high { number ≤ 536870911 }
    ensures { OnOk result (out.new ≡ out.old ++ message_of (text_field number text.now)) }
{
    match text.text().as_bytes() {
        [] => Ok(()),
        bytes => out.bytes(alloc, number, bytes),
    }
}

/// Writes a number, unless it is 0.
fn put_varint(alloc: Global, out: &mut Out, number: u32, value: u64) -> Result<(), Memory>
    requires low { 1 ≤ number }
    requires high { number ≤ 536870911 }
    ensures { OnOk result (out.new ≡ out.old ++ message_of (varint_field number value)) }
{
    if value == 0 {
        return Ok(());
    }
    out.varint(alloc, number, value)
}

/// Writes an int64, or an int32 as one, unless it is 0.
pub fn put_int(alloc: Global, out: &mut Out, number: u32, value: i64) -> Result<(), Memory>
    requires low { 1 ≤ number }
    requires high { number ≤ 536870911 }
    ensures { OnOk result (out.new ≡ out.old ++ message_of (int_field number value)) }
{
    put_varint(alloc, out, number, value.cast_unsigned())
}

/// An Int64Value.
#[tactic(auto, unfolding(crate::specs::RequestBytes::int64_value_bytes))]
fn write_int64_value(alloc: Global, value: i64) -> Result<Blob, Memory>
    ensures { IfOk result (λ b. b ≡ int64_value_bytes value) }
{
    let mut out = Out::new(alloc);
    put_int(alloc, &mut out, VALUE, value)?;
    Ok(out.finish())
}

/// Writes an Int64Value, if there is one.
pub(crate) fn put_int64_value(
    alloc: Global,
    out: &mut Out,
    number: u32,
    value: Option<i64>,
) -> Result<(), Memory>
    requires low { 1 ≤ number }
    requires high { number ≤ 536870911 }
    ensures { OnOk result (out.new ≡ out.old ++ message_of (message_field number (option_map int64_value_bytes value))) }
{
    let Some(value) = value else {
        return Ok(());
    };
    let message = write_int64_value(alloc, value)?;
    out.bytes(alloc, number, message.bytes())
}
