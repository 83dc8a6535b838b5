//! Writing fields with all fields within them, however deep they nest, in one pass: the length of
//! each message is known before it is written.

ghost use Rattle.std.specs.Prelude.{◌≡◌, ◌≤◌, ◌++◌, OnOk};
ghost use Rattle.proto_fields.specs.Record.{head_bytes};
ghost use Rattle.proto_fields.specs.Message.{message_of};
ghost use Rattle.schema_msgs.specs.Outline.{IsOutline, fields_at};
ghost use Rattle.schema_msgs.specs.SchemaBytes.{field_records, own_records};
ghost use Rattle.schema_msgs.specs.Lengths.{number_at, own_bytes};

use crate::field_lengths::lengths;
use crate::field_lists::TableFieldSchemas;
use crate::nested_fields::NestedField;
use crate::numbers::{COLUMN_TYPE, FIELD_NAME, FIELDS, MODE};
use outside::{Memory, Text};
use proto_fields::Out;
use std::alloc::Global;
use write_msgs::{put_int, put_text};

/// Writes what a field's message says of the field itself.
pub(crate) fn put_own(
    alloc: Global,
    out: &mut Out,
    name: &Text,
    column_type: i32,
    mode: i32,
) -> Result<(), Memory>
    ensures { OnOk result (out.new ≡ out.old ++ message_of (own_records name.now column_type mode)) }
{
    put_text(alloc, out, FIELD_NAME, name)?;
    put_int(alloc, out, COLUMN_TYPE, column_type as i64)?;
    put_int(alloc, out, MODE, mode as i64)?;
    Ok(())
}

/// The number of the field in which fields of a depth are occurrences, given that for depth 0.
fn number_at(number: u32, depth: u32) -> u32
    ensures number { result ≡ number_at number depth }
    ensures low { 1 ≤ number → 1 ≤ result }
    ensures high { number ≤ 536870911 → result ≤ 536870911 }
{
    if depth == 0 { number } else { FIELDS }
}

/// Writes what stands in front of a field's message, and what it says of the field itself. The fields
/// within it are to be written behind that.
fn put_field(
    alloc: Global,
    out: &mut Out,
    number: u32,
    field: &NestedField,
    len: usize,
) -> Result<(), Memory>
    requires low { 1 ≤ number }
    requires high { number ≤ 536870911 }
    ensures { OnOk result (out.new ≡ out.old ++ (head_bytes (number_at number field.now.depth) len ++ own_bytes field.now)) }
{
    out.head(alloc, number_at(number, field.depth), len)?;
    put_own(alloc, out, &field.name, field.column_type, field.mode)?;
    Ok(())
}

/// Writes fields as occurrences of the field of this number, each with the fields within it.
fn put_fields(
    alloc: Global,
    out: &mut Out,
    number: u32,
    fields: &[NestedField],
) -> Result<(), Memory>
    requires low { 1 ≤ number }
    requires high { number ≤ 536870911 }
    requires nests { IsOutline fields.now }
    ensures { OnOk result (out.new ≡ out.old ++ message_of (field_records number (fields_at 0 fields.now))) }
{
    let lens = lengths(alloc, fields)?;
    for (i, field) in fields.iter().enumerate() {
        put_field(alloc, out, number, field, lens[i])?;
    }
    Ok(())
}

/// Writes a list of fields as occurrences of the field of this number.
pub(crate) fn put_list(
    alloc: Global,
    out: &mut Out,
    number: u32,
    fields: &TableFieldSchemas,
) -> Result<(), Memory>
    requires low { 1 ≤ number }
    requires high { number ≤ 536870911 }
    ensures { OnOk result (out.new ≡ out.old ++ message_of (field_records number fields.now)) }
{
    put_fields(alloc, out, number, fields.nested())?;
    Ok(())
}
