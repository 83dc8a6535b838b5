//! Rows, one and many.

ghost use Rattle.std.specs.Prelude.{◌≡◌, ◌<◌, ◌≤◌, ◌^◌, All, IfOk, MatchResult, List, length, take};
ghost use Rattle.column_types.specs.declared.column.Column.{Column};
ghost use Rattle.column_types.specs.Row.{Fits};
ghost use Rattle.column_types.specs.Sizes.{bytes_of_row};
ghost use Rattle.std.specs.List.{sum_by};
ghost use Rattle.row_descriptor.specs.Binding.{IsBoundTo};
ghost use Rattle.row_decode.specs.Row.{row_of};
ghost use Rattle.row_decode.specs.Rows.{faults_of};
ghost use Rattle.row_decode.specs.Answers.{AreRows, Decodes, IsRefused, RefusesRows};

use crate::cells::cells_of;
use crate::faults::{MAX_FAULTS, RowFault, RowFaults, RowWhy, RowsFault};
use column_types::Row;
use outside::{Blob, Memory};
use proto_fields::fields;
use row_descriptor::Binding;
use std::alloc::Global;

/// Reads a row of fewer than 2^32 bytes. It fits the columns that the binding was made for, and its texts and byte
/// strings together have no more bytes than it.
pub fn decode_row(alloc: Global, binding: &Binding, bytes: &[u8]) -> Result<Row, RowWhy>
    requires { length bytes.now < 2 ^ 32 }
    ensures value { Decodes (λ row. row) result (row_of binding.now bytes.now) }
    ensures fits { (columns : List Column) → IsBoundTo columns binding.now → IfOk result (Fits columns) }
    ensures size { IfOk result (λ row. bytes_of_row row ≤ length bytes.now) }
{
    let records = fields(alloc, bytes)?;
    let cells = cells_of(alloc, binding.columns(), bytes, &records)?;
    Ok(Row::from_vec(cells))
}

/// Reads fewer than 2^32 rows, each of fewer than 2^32 bytes. They fit the columns that the binding was made for,
/// and their texts and byte strings together have no more bytes than they. Where a row is refused, the first 100 that are refused are named.
pub fn decode_rows(alloc: Global, binding: &Binding, rows: &[Blob]) -> Result<Vec<Row>, RowsFault>
    requires few { length rows.now < 2 ^ 32 }
    requires short { All (λ bytes. length bytes < 2 ^ 32) rows.now }
    ensures value { MatchResult result (λ decoded. AreRows binding.now rows.now decoded.items) (RefusesRows binding.now rows.now) }
    ensures fits { (columns : List Column) → IsBoundTo columns binding.now → IfOk result (λ decoded. All (Fits columns) decoded.items) }
    ensures size { IfOk result (λ decoded. sum_by bytes_of_row decoded.items ≤ sum_by length rows.now) }
{
    let mut decoded = Vec::with_capacity(alloc, rows.len())?;
    for bytes in rows {
        match decode_row(alloc, binding, bytes.bytes()) {
            Ok(row) => decoded.push(row)?,
            Err(why) => return Err(fault_of(alloc, binding, rows, why)?),
        }
    }
    Ok(decoded)
}

// The refusal of rows, of which one is refused for this reason.
fn fault_of(
    alloc: Global,
    binding: &Binding,
    rows: &[Blob],
    why: RowWhy,
) -> Result<RowsFault, Memory>
    requires few { length rows.now < 2 ^ 32 }
    requires short { All (λ bytes. length bytes < 2 ^ 32) rows.now }
    requires bad { IsRefused binding.now rows.now why }
    ensures { IfOk result (RefusesRows binding.now rows.now) }
{
    match why {
        RowWhy::Memory => Ok(RowsFault::Memory),
        _ => {
            let faults = first_faults(alloc, binding, rows)?;
            Ok(RowsFault::Refused(RowFaults::from_vec(faults)))
        }
    }
}

// The first rows that are refused.
fn first_faults(alloc: Global, binding: &Binding, rows: &[Blob]) -> Result<Vec<RowFault>, Memory>
    requires few { length rows.now < 2 ^ 32 }
    requires short { All (λ bytes. length bytes < 2 ^ 32) rows.now }
    ensures { IfOk result (λ faults. faults.items ≡ take MAX_FAULTS (faults_of binding.now rows.now)) }
{
    let mut faults = Vec::new(alloc);
    for (index, bytes) in rows.iter().enumerate() {
        if faults.len() == MAX_FAULTS {
            return Ok(faults);
        }
        match decode_row(alloc, binding, bytes.bytes()) {
            Ok(_) => {}
            Err(RowWhy::Memory) => return Err(Memory),
            Err(why) => faults.push(RowFault {
                index: index as u32,
                why,
            })?,
        }
    }
    Ok(faults)
}
