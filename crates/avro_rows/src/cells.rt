//! Single values, both ways.

ghost use Rattle.std.specs.Prelude.{◌≡◌, [], ◌∷◌, ◌++◌, IsTrue, IfOk, OnOk};
ghost use Rattle.std.specs.Option.{option_map};
ghost use Rattle.column_types.specs.Row.{is_of_kind, fits_column};
ghost use Rattle.avro_rows.specs.Reads.{Reads};
ghost use Rattle.avro_rows.specs.Datum.{counted, value_datum, cell_datum, is_null_or};

use crate::longs::{long_at, push_long};
use column_types::{Cell, Column, FIRST_DAY, FIRST_INSTANT, Kind, LAST_DAY, LAST_INSTANT, Mode};
use outside::{Blob, Memory, Text};
use std::alloc::Global;
use std::str;

/// The branch of null in the union of a NULLABLE column: place 0, as a long.
const NULL_BRANCH: u8 = 0;

/// The other branch of this union: place 1, as a long.
const VALUE_BRANCH: u8 = 2;

/// Writes a cell of a column of this mode at the end.
pub(crate) fn push_cell(out: &mut Vec<u8>, mode: Mode, cell: &Cell) -> Result<(), Memory>
    ensures { OnOk result (out.new.items ≡ out.old.items ++ cell_datum mode cell.now) }
{
    if mode == Mode::Nullable {
        if cell.is_null() {
            out.push(NULL_BRANCH)?;
            return Ok(());
        }
        out.push(VALUE_BRANCH)?;
    }
    push_value(out, cell)
}

fn push_value(out: &mut Vec<u8>, value: &Cell) -> Result<(), Memory>
    ensures { OnOk result (out.new.items ≡ out.old.items ++ value_datum value.now) }
{
    match value {
        Cell::Null => Ok(()),
        Cell::Int(value) => push_long(out, *value),
        Cell::Bool(value) => push_byte(out, u8::from(*value)),
        Cell::Str(text) => push_counted(out, text.text().as_bytes()),
        Cell::Bytes(bytes) => push_counted(out, bytes.bytes()),
        Cell::Date(day) => push_long(out, i64::from(*day)),
        Cell::Timestamp(instant) => push_long(out, *instant),
    }
}

fn push_byte(out: &mut Vec<u8>, byte: u8) -> Result<(), Memory>
    ensures { OnOk result (out.new.items ≡ out.old.items ++ byte ∷ []) }
{
    out.push(byte)?;
    Ok(())
}

/// Writes a length and that many bytes.
fn push_counted(out: &mut Vec<u8>, bytes: &[u8]) -> Result<(), Memory>
    ensures { OnOk result (out.new.items ≡ out.old.items ++ counted bytes.now) }
{
    push_long(out, bytes.len() as i64)?;
    out.extend_from_slice(bytes)?;
    Ok(())
}

/// Reads a cell of this column from the front, and gives what stands behind it. None where no cell that fits the column
/// stands there.
pub(crate) fn cell_at<'a>(
    alloc: Global,
    column: &Column,
    bytes: &'a [u8],
) -> Result<Option<(Cell, &'a [u8])>, Memory>
    ensures { IfOk result (Reads (λ cell. IsTrue (fits_column column.now cell)) (cell_datum column.now.mode) bytes.now) }
{
    match column.mode {
        Mode::Required => value_at(alloc, column.kind, bytes),
        Mode::Nullable => nullable_at(alloc, column.kind, bytes),
    }
}

/// Reads a value of this kind, or NULL, from the front of the union of a NULLABLE column.
fn nullable_at(alloc: Global, kind: Kind, bytes: &[u8]) -> Result<Option<(Cell, &[u8])>, Memory>
    ensures { IfOk result (Reads (λ cell. IsTrue (is_null_or kind cell)) (cell_datum Mode.Nullable) bytes.now) }
{
    let Some((branch, rest)) = bytes.split_first() else {
        return Ok(None);
    };
    if *branch == NULL_BRANCH {
        return Ok(Some((Cell::Null, rest)));
    }
    if *branch != VALUE_BRANCH {
        return Ok(None);
    }
    value_at(alloc, kind, rest)
}

fn value_at(alloc: Global, kind: Kind, bytes: &[u8]) -> Result<Option<(Cell, &[u8])>, Memory>
    ensures { IfOk result (Reads (λ cell. IsTrue (is_of_kind kind cell)) value_datum bytes.now) }
{
    match kind {
        Kind::Int64 => Ok(int_at(bytes)),
        Kind::Bool => Ok(bool_at(bytes)),
        Kind::Str => text_at(alloc, bytes),
        Kind::Bytes => bytes_at(alloc, bytes),
        Kind::Date => Ok(date_at(bytes)),
        Kind::Timestamp => Ok(timestamp_at(bytes)),
    }
}

fn int_at(bytes: &[u8]) -> Option<(Cell, &[u8])>
    ensures { Reads (λ cell. IsTrue (is_of_kind Kind.Int64 cell)) value_datum bytes.now result }
{
    let Some((value, rest)) = long_at(bytes) else {
        return None;
    };
    Some((Cell::Int(value), rest))
}

fn bool_at(bytes: &[u8]) -> Option<(Cell, &[u8])>
    ensures { Reads (λ cell. IsTrue (is_of_kind Kind.Bool cell)) value_datum bytes.now result }
{
    let Some((byte, rest)) = bytes.split_first() else {
        return None;
    };
    match byte {
        0 => Some((Cell::Bool(false), rest)),
        1 => Some((Cell::Bool(true), rest)),
        _ => None,
    }
}

fn text_at(alloc: Global, bytes: &[u8]) -> Result<Option<(Cell, &[u8])>, Memory>
    ensures { IfOk result (Reads (λ cell. IsTrue (is_of_kind Kind.Str cell)) value_datum bytes.now) }
{
    let Some((block, rest)) = counted_at(bytes) else {
        return Ok(None);
    };
    match str::from_utf8(block) {
        Ok(text) => Ok(Some((Cell::Str(Text::of(alloc, text)?), rest))),
        Err(_) => Ok(None),
    }
}

fn bytes_at(alloc: Global, bytes: &[u8]) -> Result<Option<(Cell, &[u8])>, Memory>
    ensures { IfOk result (Reads (λ cell. IsTrue (is_of_kind Kind.Bytes cell)) value_datum bytes.now) }
{
    let Some((block, rest)) = counted_at(bytes) else {
        return Ok(None);
    };
    Ok(Some((Cell::Bytes(Blob::of(alloc, block)?), rest)))
}

fn date_at(bytes: &[u8]) -> Option<(Cell, &[u8])>
    ensures { Reads (λ cell. IsTrue (is_of_kind Kind.Date cell)) value_datum bytes.now result }
{
    let Some((day, rest)) = long_at(bytes) else {
        return None;
    };
    if i64::from(FIRST_DAY) <= day && day <= i64::from(LAST_DAY) {
        Some((Cell::Date(day as i32), rest))
    } else {
        None
    }
}

fn timestamp_at(bytes: &[u8]) -> Option<(Cell, &[u8])>
    ensures { Reads (λ cell. IsTrue (is_of_kind Kind.Timestamp cell)) value_datum bytes.now result }
{
    let Some((instant, rest)) = long_at(bytes) else {
        return None;
    };
    if FIRST_INSTANT <= instant && instant <= LAST_INSTANT {
        Some((Cell::Timestamp(instant), rest))
    } else {
        None
    }
}

/// Reads a length and that many bytes from the front, and gives what stands behind them.
fn counted_at(bytes: &[u8]) -> Option<(&[u8], &[u8])>
    ensures { Reads (λ block. Unit {0}) counted bytes.now (option_map (λ found. (found.0.now, found.1)) result) }
{
    let Some((len, rest)) = long_at(bytes) else {
        return None;
    };
    if len < 0 {
        return None;
    }
    let len = len as usize;
    if rest.len() < len {
        return None;
    }
    Some(rest.split_at(len))
}
