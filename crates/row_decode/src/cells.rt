//! The cell of one column.

ghost use Rattle.std.specs.Prelude.{◌≡◌, ◌≤◌, All, length};
ghost use Rattle.proto_fields.specs.Spans.{records_in, IsWithin};
ghost use Rattle.row_decode.specs.Number.{number_of as number};
ghost use Rattle.row_decode.specs.Cell.{cell_from, cell_of, date_cell, int_cell, no_value, text_cell, timestamp_cell};
ghost use Rattle.row_decode.specs.Row.{cells_from};
ghost use Rattle.row_decode.specs.Answers.{Decodes};

use crate::faults::RowWhy;
use crate::numbers::number_of;
use column_types::{
    Cell, FIRST_DAY, FIRST_INSTANT, Kind, LAST_DAY, LAST_INSTANT, MAX_COLUMNS, Mode,
};
use outside::{Blob, Text};
use proto_fields::{Field, last_bytes, last_varint, part};
use row_descriptor::{BoundColumn, FieldType, Source};
use std::alloc::Global;

/// The cells of columns, in their order, by the fields of a row's message.
pub fn cells_of(
    alloc: Global,
    columns: &[BoundColumn],
    bytes: &[u8],
    records: &[Field],
) -> Result<Vec<Cell>, RowWhy>
    requires few { length columns.now ≤ MAX_COLUMNS }
    requires within { All (IsWithin (length bytes.now)) records.now }
    ensures { Decodes (λ cells. cells.items) result (cells_from 0 columns.now (records_in bytes.now records.now)) }
{
    let mut cells = Vec::with_capacity(alloc, columns.len())?;
    for (at, column) in columns.iter().enumerate() {
        cells.push(cell_of(alloc, at as u32, column, bytes, records)?)?;
    }
    Ok(cells)
}

// The cell of the column of this number.
#[tactic(auto, unfolding(crate::specs::Cell::cell_of))]
fn cell_of(
    alloc: Global,
    at: u32,
    column: &BoundColumn,
    bytes: &[u8],
    records: &[Field],
) -> Result<Cell, RowWhy>
    requires { All (IsWithin (length bytes.now)) records.now }
    ensures { Decodes (λ cell. cell) result (cell_of at column.now (records_in bytes.now records.now)) }
{
    match column.source {
        Some(source) => cell_from(alloc, at, column, source, bytes, records),
        None => no_value(at, column.mode),
    }
}

// The cell of the column of this number, which is read from a field.
fn cell_from(
    alloc: Global,
    at: u32,
    column: &BoundColumn,
    source: Source,
    bytes: &[u8],
    records: &[Field],
) -> Result<Cell, RowWhy>
    requires { All (IsWithin (length bytes.now)) records.now }
    ensures { Decodes (λ cell. cell) result (cell_from at column.now.kind column.now.mode source (records_in bytes.now records.now)) }
{
    let Source { number, field_type } = source;
    match column.kind {
        Kind::Int64 => match last_varint(records, number) {
            Some(varint) => int_cell(at, field_type, varint),
            None => no_value(at, column.mode),
        },
        Kind::Bool => match last_varint(records, number) {
            Some(varint) => Ok(Cell::Bool(varint != 0)),
            None => no_value(at, column.mode),
        },
        Kind::Str => match last_bytes(records, number) {
            Some(span) => text_cell(alloc, at, part(bytes, span)),
            None => no_value(at, column.mode),
        },
        Kind::Bytes => match last_bytes(records, number) {
            Some(span) => Ok(Cell::Bytes(Blob::of(alloc, part(bytes, span))?)),
            None => no_value(at, column.mode),
        },
        Kind::Date => match last_varint(records, number) {
            Some(varint) => date_cell(at, field_type, varint),
            None => no_value(at, column.mode),
        },
        Kind::Timestamp => match last_varint(records, number) {
            Some(varint) => timestamp_cell(at, field_type, varint),
            None => no_value(at, column.mode),
        },
    }
}

// What stands for no value.
fn no_value(at: u32, mode: Mode) -> Result<Cell, RowWhy>
    ensures { result ≡ no_value at mode }
{
    match mode {
        Mode::Nullable => Ok(Cell::Null),
        Mode::Required => Err(RowWhy::Missing { column: at }),
    }
}

fn int_cell(at: u32, field_type: FieldType, varint: u64) -> Result<Cell, RowWhy>
    ensures { result ≡ int_cell at (number field_type varint) }
{
    match number_of(field_type, varint) {
        Some(value) => Ok(Cell::Int(value)),
        None => Err(RowWhy::OutOfRange { column: at }),
    }
}

fn date_cell(at: u32, field_type: FieldType, varint: u64) -> Result<Cell, RowWhy>
    ensures { result ≡ date_cell at (number field_type varint) }
{
    match number_of(field_type, varint) {
        Some(day) if FIRST_DAY as i64 <= day && day <= LAST_DAY as i64 => {
            Ok(Cell::Date(day as i32))
        }
        _ => Err(RowWhy::OutOfRange { column: at }),
    }
}

fn timestamp_cell(at: u32, field_type: FieldType, varint: u64) -> Result<Cell, RowWhy>
    ensures { result ≡ timestamp_cell at (number field_type varint) }
{
    match number_of(field_type, varint) {
        Some(instant) if FIRST_INSTANT <= instant && instant <= LAST_INSTANT => {
            Ok(Cell::Timestamp(instant))
        }
        _ => Err(RowWhy::OutOfRange { column: at }),
    }
}

fn text_cell(alloc: Global, at: u32, bytes: &[u8]) -> Result<Cell, RowWhy>
    ensures { Decodes (λ cell. cell) result (text_cell at bytes.now) }
{
    match str::from_utf8(bytes) {
        Ok(text) => Ok(Cell::Str(Text::of(alloc, text)?)),
        Err(_) => Err(RowWhy::BadText { column: at }),
    }
}
