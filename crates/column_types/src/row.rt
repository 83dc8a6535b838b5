//! A row, and whether it fits a schema.

ghost use Rattle.std.specs.Prelude.{◌≡◌, List, IfOk};
ghost use Rattle.std.specs.List.{list_all, zip};
ghost use Rattle.column_types.specs.Fields.{projected};
ghost use Rattle.column_types.specs.Row.{Fits, fits_column as fits_one, fits_columns, is_of_kind};
ghost use Rattle.column_types.specs.Typed.{is_literal as is_literal_of};

use crate::cell::{Cell, copies};
use crate::column::{Column, Kind, Mode};
use crate::fields::Fields;
use crate::ranges::{FIRST_DAY, FIRST_INSTANT, LAST_DAY, LAST_INSTANT};
use crate::schema::Schema;
use outside::Memory;
use sqlite_items::at;
use std::alloc::Global;
use std::marker::Model;

/// A list of cells.
#[derive(Drop)]
pub struct Row {
    cells: Vec<Cell>,
}

impl Model for Row {
    ghost use Rattle.std.specs.Prelude.{List};
    ghost use Rattle.column_types.specs.declared.cell.Cell.{Cell};

    ghost Value = { List Cell };

    ghost view = { λ r. r.cells.items };
}

impl Row {
    /// The row of these cells.
    pub fn from_vec(cells: Vec<Cell>) -> Row
        ensures { result ≡ cells.items }
    {
        Row { cells }
    }

    /// The cells.
    pub fn into_vec(self) -> Vec<Cell>
        ensures { result.items ≡ self }
    {
        self.cells
    }

    /// The cells.
    pub fn cells(&self) -> &[Cell]
        ensures { result.now ≡ self.now }
    {
        self.cells.as_slice()
    }
}

impl Row {
    /// A copy.
    pub fn copy(&self, alloc: Global) -> Result<Row, Memory>
        ensures { IfOk result (λ row. row ≡ self.now) }
    {
        Ok(Row {
            cells: copies(alloc, self.cells())?,
        })
    }
}

/// Whether a row fits a schema: one cell for each column, of the column's kind and within the kind's range, and NULL
/// only where the column is NULLABLE.
pub fn fits(schema: &Schema, row: &Row) -> bool
    ensures { result ≡ fits_columns schema.now row.now }
{
    let columns = schema.columns();
    let cells = row.cells();
    columns.len() == cells.len() && all_fit(columns, cells)
}

/// Whether each cell may stand in the column of its place.
fn all_fit(columns: &[Column], cells: &[Cell]) -> bool
    ensures { result ≡ list_all (λ pair. fits_one pair.0 pair.1) (zip columns.now cells.now) }
{
    columns
        .iter()
        .zip(cells)
        .all(|(column, cell)| fits_column(column, cell))
}

/// Whether a cell may stand in a column.
pub fn fits_column(column: &Column, cell: &Cell) -> bool
    ensures { result ≡ fits_one column.now cell.now }
{
    match cell {
        Cell::Null => column.mode == Mode::Nullable,
        value => has_kind(column.kind, value),
    }
}

/// Whether a value is of this kind and within its range. NULL is of no kind.
fn has_kind(kind: Kind, value: &Cell) -> bool
    ensures { result ≡ is_of_kind kind value.now }
{
    match (kind, value) {
        (Kind::Int64, Cell::Int(value)) => {
            let _value = *value;
            true
        },
        (Kind::Bool, Cell::Bool(_)) => true,
        (Kind::Str, Cell::Str(text)) => {
            // A text is UTF-8 by its type.
            let _text: &str = text.text();
            true
        }
        (Kind::Bytes, Cell::Bytes(_)) => true,
        (Kind::Date, Cell::Date(day)) => FIRST_DAY <= *day && *day <= LAST_DAY,
        (Kind::Timestamp, Cell::Timestamp(instant)) => {
            FIRST_INSTANT <= *instant && *instant <= LAST_INSTANT
        }
        _ => false,
    }
}

/// Whether a column of this kind may be compared with a value: one of its kind and range, where the kind isn't BYTES.
pub fn is_literal(kind: Kind, value: &Cell) -> bool
    ensures { result ≡ is_literal_of kind value.now }
{
    kind != Kind::Bytes && has_kind(kind, value)
}

/// The cells of the row at the numbers of the fields, in the fields' order. Where the row fits a schema they fit the
/// columns of these numbers.
pub fn project(alloc: Global, fields: &Fields, row: &Row) -> Result<Row, Memory>
    ensures value { IfOk result (λ chosen. chosen ≡ projected fields.now row.now) }
    ensures fits { (columns : List Column) → Fits columns row.now → IfOk result (Fits (projected fields.now columns)) }
{
    let cells = cells_at(alloc, fields.numbers(), row.cells())?;
    Ok(Row { cells })
}

/// A copy of the cells at these numbers.
fn cells_at(alloc: Global, numbers: &[u32], row: &[Cell]) -> Result<Vec<Cell>, Memory>
    ensures { IfOk result (λ cells. cells.items ≡ projected numbers.now row.now) }
{
    let mut cells = Vec::with_capacity(alloc, numbers.len())?;
    for number in numbers {
        if let Some(cell) = at(row, *number as usize) {
            cells.push(cell.copy(alloc)?)?;
        }
    }
    Ok(cells)
}
