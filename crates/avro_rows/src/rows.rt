//! Whole rows, both ways.

ghost use Rattle.std.specs.Prelude.{◌≡◌, ◌++◌, ◌≤◌, ◌<◌, ℕ, List, length, take, All, IfOk, IfErr, OnOk, MatchResult};
ghost use Rattle.column_types.specs.declared.cell.Cell.{Cell as CellValue};
ghost use Rattle.column_types.specs.Fields.{IsMadeFor, projected};
ghost use Rattle.column_types.specs.Row.{Fits};
ghost use Rattle.avro_rows.specs.Datum.{datum_of};
ghost use Rattle.avro_rows.specs.Fault.{Refuses};

use crate::cells::{cell_at, push_cell};
use column_types::{Cell, Column, Fields, Row, Schema};
use outside::{Blob, Memory};
use std::alloc::{AllocError, AllocFailed, Global};
use thiserror::Error;

/// Why bytes have no datum at their front.
#[derive(Debug, Drop, PartialEq, Eq, Error)]
pub enum DatumFault {
    /// Want of memory.
    #[error("out of memory")]
    Memory,
    /// No row's datum begins the bytes. The first column that can't be read begins at `at`.
    #[error("bad datum at {at}")]
    BadDatum { at: usize },
}

impl From<Memory> for DatumFault {
    ghost use Rattle.std.specs.Prelude.{◌≡◌};
    ghost use Rattle.avro_rows.specs.declared.rows.DatumFault.TheVariants as fault;

    ghost from_gives = { λ _ e. e ≡ fault.Memory };

    fn from(_memory: Memory) -> DatumFault {
        DatumFault::Memory
    }
}

impl From<AllocError> for DatumFault {
    ghost use Rattle.std.specs.Prelude.{◌≡◌};
    ghost use Rattle.avro_rows.specs.declared.rows.DatumFault.TheVariants as fault;

    ghost from_gives = { λ _ e. e ≡ fault.Memory };

    fn from(_error: AllocError) -> DatumFault {
        DatumFault::Memory
    }
}

impl<T: Drop> From<AllocFailed<T>> for DatumFault {
    ghost use Rattle.std.specs.Prelude.{◌≡◌};
    ghost use Rattle.avro_rows.specs.declared.rows.DatumFault.TheVariants as fault;

    ghost from_gives = { λ _ e. e ≡ fault.Memory };

    fn from(_failed: AllocFailed<T>) -> DatumFault {
        DatumFault::Memory
    }
}

/// The datum of a row that has a cell for each of the fields, as `project` gives it.
pub fn encode_row(
    alloc: Global,
    schema: &Schema,
    fields: &Fields,
    row: &Row,
) -> Result<Blob, Memory>
    requires made { IsMadeFor schema.now fields.now }
    requires fits { Fits (projected fields.now schema.now) row.now }
    ensures { IfOk result (λ datum. datum ≡ datum_of (projected fields.now schema.now) row.now) }
{
    let mut out = Vec::with_capacity(alloc, room_for(row.cells()))?;
    push_cells(&mut out, schema.columns(), fields.numbers(), row.cells())?;
    Ok(Blob::from_vec(out))
}

/// Writes the datum of a row's chosen cells at the end. The row has a cell for each column of the schema, and is not
/// copied.
pub fn push_chosen(
    out: &mut Vec<u8>,
    schema: &Schema,
    fields: &Fields,
    row: &Row,
) -> Result<(), Memory>
    requires made { IsMadeFor schema.now fields.now }
    requires fits { Fits schema.now row.now }
    ensures { OnOk result (out.new.items ≡ out.old.items ++ datum_of (projected fields.now schema.now) (projected fields.now row.now)) }
{
    push_cells_at(out, schema.columns(), fields.numbers(), row.cells())
}

/// Writes the cells of these numbers.
fn push_cells_at(
    out: &mut Vec<u8>,
    columns: &[Column],
    numbers: &[u32],
    cells: &[Cell],
) -> Result<(), Memory>
    requires within { All (λ number. number < length columns.now) numbers.now }
    requires count { length columns.now ≡ length cells.now }
    ensures { OnOk result (out.new.items ≡ out.old.items ++ datum_of (projected numbers.now columns.now) (projected numbers.now cells.now)) }
{
    for number in numbers {
        let place = *number as usize;
        let column = &columns[place];
        push_cell(out, column.mode, &cells[place])?;
    }
    Ok(())
}

/// The most bytes of a cell, but for its text or bytes: a branch and a number.
const CELL_ROOM: usize = 11;

/// The most bytes that the datum of these cells takes.
fn room_for(cells: &[Cell]) -> usize {
    let mut room = 0usize;
    for cell in cells {
        let held = match cell {
            Cell::Str(text) => text.text().len(),
            Cell::Bytes(bytes) => bytes.len(),
            _ => 0,
        };
        room = room.saturating_add(held).saturating_add(CELL_ROOM);
    }
    room
}

fn push_cells(
    out: &mut Vec<u8>,
    columns: &[Column],
    numbers: &[u32],
    cells: &[Cell],
) -> Result<(), Memory>
    requires within { All (λ number. number < length columns.now) numbers.now }
    requires count { length numbers.now ≡ length cells.now }
    ensures { OnOk result (out.new.items ≡ out.old.items ++ datum_of (projected numbers.now columns.now) cells.now) }
{
    for (i, cell) in cells.iter().enumerate() {
        let column = &columns[numbers[i] as usize];
        push_cell(out, column.mode, cell)?;
    }
    Ok(())
}

/// The row whose datum begins the bytes, with a cell for each of the fields, and the bytes that its datum takes.
pub fn decode_row(
    alloc: Global,
    schema: &Schema,
    fields: &Fields,
    bytes: &[u8],
) -> Result<(Row, usize), DatumFault>
    requires made { IsMadeFor schema.now fields.now }

    // What is read is a datum.
    ensures found { IfOk result (λ found. Fits (projected fields.now schema.now) found.0 × (found.1 ≤ length bytes.now) ×
        (take found.1 bytes.now ≡ datum_of (projected fields.now schema.now) found.0)) }

    // Which column can't be read.
    ensures fault { IfErr result (Refuses (projected fields.now schema.now) bytes.now) }

    // What begins with a datum is read, unless memory runs out.
    ensures again { (row : List CellValue) (rest : List ℕ) → Fits (projected fields.now schema.now) row →
        bytes.now ≡ datum_of (projected fields.now schema.now) row ++ rest →
        MatchResult result (λ found. (found.0 ≡ row) × (found.1 ≡ length (datum_of (projected fields.now schema.now) row))) (λ e. e ≡ DatumFault.Memory) }
{
    match read_cells(alloc, schema.columns(), fields.numbers(), bytes) {
        Ok((cells, rest)) => Ok((Row::from_vec(cells), bytes.len() - rest.len())),
        Err(fault) => Err(fault),
    }
}

/// The cells whose data begin the bytes, one for each of these columns, and what stands behind them.
fn read_cells<'a>(
    alloc: Global,
    columns: &[Column],
    numbers: &[u32],
    bytes: &'a [u8],
) -> Result<(Vec<Cell>, &'a [u8]), DatumFault>
    requires within { All (λ number. number < length columns.now) numbers.now }
    ensures found { IfOk result (λ found. Fits (projected numbers.now columns.now) found.0.items × (bytes.now ≡ datum_of (projected numbers.now columns.now) found.0.items ++ found.1.now)) }
    ensures fault { IfErr result (Refuses (projected numbers.now columns.now) bytes.now) }
{
    let mut cells = Vec::with_capacity(alloc, numbers.len())?;
    let mut rest = bytes;
    for number in numbers {
        let column = &columns[*number as usize];
        let Some((cell, behind)) = cell_at(alloc, column, rest)? else {
            return Err(DatumFault::BadDatum {
                at: bytes.len() - rest.len(),
            });
        };
        cells.push(cell)?;
        rest = behind;
    }
    Ok((cells, rest))
}
