//! How long the messages of fields are: a message's length stands in front of it.

ghost use Rattle.std.specs.Prelude.{◌≡◌, ◌≤◌, ◌<◌, ◌+◌, ℕ, List, ◌∷◌, length, slice_index_or, if◌then◌else◌, nat_lt, ◌==◌, IfOk, OnOk};
ghost use Rattle.proto_fields.specs.Message.{message_of};
ghost use Rattle.write_msgs.specs.Writing.{int_field, text_field};
ghost use Rattle.schema_msgs.specs.Lengths.{IsBelow, own_bytes, size_of, sizes_of};
ghost use Rattle.schema_msgs.specs.declared.nested_fields.NestedField.{NestedField};

use crate::nested_fields::NestedField;
use crate::numbers::{COLUMN_TYPE, FIELD_NAME, FIELDS, MODE};
use outside::{Memory, Text};
use proto_fields::varint_len;
use std::alloc::Global;

/// A sum of lengths. No memory holds more bytes than a usize counts.
fn sum(a: usize, b: usize) -> Result<usize, Memory>
    ensures { IfOk result (λ s. s ≡ a + b) }
{
    a.checked_add(b).ok_or(Memory)
}

/// How long a text is with what stands in front of it; an empty one is not written.
fn text_len(number: u32, text: &Text) -> Result<usize, Memory>
    requires { number ≤ 536870911 }
    ensures { IfOk result (λ n. n ≡ length (message_of (text_field number text.now))) }
{
    match text.text().len() {
        0 => Ok(0),
        len => sum(
            varint_len(number as u64 * 8 + 2) + varint_len(len as u64),
            len,
        ),
    }
}

/// How long a number is with its tag; a 0 is not written.
fn int_len(number: u32, value: i32) -> usize
    requires { number ≤ 536870911 }
    ensures len { result ≡ length (message_of (int_field number value)) }
    ensures most { result ≤ 20 }
{
    match (value as i64).cast_unsigned() {
        0 => 0,
        bits => varint_len(number as u64 * 8) + varint_len(bits),
    }
}

/// How long the part of a field's message is that tells of the field itself.
fn own_len(field: &NestedField) -> Result<usize, Memory>
    ensures { IfOk result (λ n. n ≡ length (own_bytes field.now)) }
{
    sum(
        text_len(FIELD_NAME, &field.name)?,
        int_len(COLUMN_TYPE, field.column_type) + int_len(MODE, field.mode),
    )
}

/// The length at a depth, or 0 where none is kept.
fn len_at(lengths: &[usize], depth: usize) -> usize
    ensures { result ≡ slice_index_or lengths.now depth 0 }
{
    lengths.get(depth).copied().unwrap_or(0)
}

/// Adds to the length at a depth, and sets those of greater depths to 0.
fn add_at(lengths: &mut Vec<usize>, depth: usize, len: usize) -> Result<(), Memory>
    requires { depth < 4294967296 }
    ensures { OnOk result ((d : ℕ) → slice_index_or lengths.new.items d 0 ≡ (if nat_lt depth d then 0 else (if d == depth then slice_index_or lengths.old.items d 0 + len else slice_index_or lengths.old.items d 0))) }
{
    lengths.resize(depth + 1, 0)?;
    lengths[depth] = sum(lengths[depth], len)?;
    Ok(())
}

/// The length of the message of a field, given how long the fields behind it are; it counts from then
/// on among these.
fn measure(below: &mut Vec<usize>, field: &NestedField) -> Result<usize, Memory>
    ensures len { IfOk result (λ n. (behind : List NestedField) → IsBelow below.old.items behind → n ≡ size_of field.now behind) }
    ensures below { OnOk result ((behind : List NestedField) → IsBelow below.old.items behind → IsBelow below.new.items (field.now ∷ behind)) }
{
    let depth = field.depth as usize;
    let len = sum(own_len(field)?, len_at(below.as_slice(), depth + 1))?;
    let head = varint_len(FIELDS as u64 * 8 + 2) + varint_len(len as u64);
    add_at(below, depth, sum(head, len)?)?;
    Ok(len)
}

/// The length of the message of each field, with all fields within it.
pub(crate) fn lengths(alloc: Global, fields: &[NestedField]) -> Result<Vec<usize>, Memory>
    ensures { IfOk result (λ all. all.items ≡ sizes_of fields.now) }
{
    let mut all = Vec::with_capacity(alloc, fields.len())?;
    let mut below = Vec::new(alloc);
    for i in (0..fields.len()).rev() {
        all.push(measure(&mut below, &fields[i])?)?;
    }
    all.reverse();
    Ok(all)
}
