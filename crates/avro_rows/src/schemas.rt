//! The schema of some columns, in JSON.

ghost use Rattle.std.specs.Prelude.{◌≡◌, ◌++◌, ◌<◌, length, string_bytes, All, IfOk, OnOk};
ghost use Rattle.column_types.specs.Fields.{IsMadeFor, projected};
ghost use Rattle.avro_rows.specs.SchemaText.{kind_text as text_of_kind, type_text, field_text, more_fields, field_list, schema_text_of};

use column_types::{Column, Fields, Kind, Mode, Schema};
use outside::{Memory, Text};
use std::alloc::Global;

/// The Avro schema of the fields, in JSON without blanks: a record of the name `__root__`, each column a field.
pub fn schema_text(alloc: Global, schema: &Schema, fields: &Fields) -> Result<Text, Memory>
    requires { IsMadeFor schema.now fields.now }
    ensures { IfOk result (λ text. text ≡ schema_text_of (projected fields.now schema.now)) }
{
    let mut out = String::new(alloc);
    push_text(
        &mut out,
        "{\"type\":\"record\",\"name\":\"__root__\",\"fields\":[",
    )?;
    push_fields(&mut out, schema.columns(), fields.numbers())?;
    push_text(&mut out, "]}")?;
    Ok(Text::from_string(out))
}

fn push_text(out: &mut String, text: &str) -> Result<(), Memory>
    ensures { OnOk result (string_bytes out.new ≡ string_bytes out.old ++ text.now) }
{
    out.push_str(text)?;
    Ok(())
}

/// Writes the fields of these columns, with commas between them.
fn push_fields(out: &mut String, columns: &[Column], numbers: &[u32]) -> Result<(), Memory>
    requires within { All (λ number. number < length columns.now) numbers.now }
    ensures { OnOk result (string_bytes out.new ≡ string_bytes out.old ++ field_list (projected numbers.now columns.now)) }
{
    let Some((first, more)) = numbers.split_first() else {
        return Ok(());
    };
    push_field(out, &columns[*first as usize])?;
    push_more_fields(out, columns, more)?;
    Ok(())
}

/// Writes the fields of these columns, each behind a comma.
fn push_more_fields(out: &mut String, columns: &[Column], numbers: &[u32]) -> Result<(), Memory>
    requires within { All (λ number. number < length columns.now) numbers.now }
    ensures { OnOk result (string_bytes out.new ≡ string_bytes out.old ++ more_fields (projected numbers.now columns.now)) }
{
    for number in numbers {
        push_text(out, ",")?;
        push_field(out, &columns[*number as usize])?;
    }
    Ok(())
}

fn push_field(out: &mut String, column: &Column) -> Result<(), Memory>
    ensures { OnOk result (string_bytes out.new ≡ string_bytes out.old ++ field_text column.now) }
{
    push_text(out, "{\"name\":\"")?;
    push_text(out, column.name.text())?;
    push_text(out, "\",\"type\":")?;
    push_type(out, column.mode, kind_text(column.kind))?;
    push_text(out, "}")
}

/// Writes a type, which in a NULLABLE column is the union of null and it.
fn push_type(out: &mut String, mode: Mode, value: &str) -> Result<(), Memory>
    ensures { OnOk result (string_bytes out.new ≡ string_bytes out.old ++ type_text mode value.now) }
{
    match mode {
        Mode::Required => push_text(out, value),
        Mode::Nullable => {
            push_text(out, "[\"null\",")?;
            push_text(out, value)?;
            push_text(out, "]")
        }
    }
}

/// The Avro type of a kind's values, with its logical type.
fn kind_text(kind: Kind) -> &'static str
    ensures { result.now ≡ text_of_kind kind }
{
    match kind {
        Kind::Int64 => "\"long\"",
        Kind::Bool => "\"boolean\"",
        Kind::Str => "\"string\"",
        Kind::Bytes => "\"bytes\"",
        Kind::Date => "{\"type\":\"int\",\"logicalType\":\"date\"}",
        Kind::Timestamp => "{\"type\":\"long\",\"logicalType\":\"timestamp-micros\"}",
    }
}
