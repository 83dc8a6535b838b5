//! One value of a row.

ghost use Rattle.std.specs.Prelude.{◌≡◌, IfOk};
ghost use Rattle.column_types.specs.Truth.{is_null as is_null_of};

use outside::{Blob, Memory, Text};
use sqlite_items::Items;
use std::alloc::Global;

/// A value, or NULL.
#[derive(Drop)]
pub enum Cell {
    Null,
    /// Of an INT64 column.
    Int(i64),
    /// Of a BOOL column.
    Bool(bool),
    /// Of a STRING column.
    Str(Text),
    /// Of a BYTES column.
    Bytes(Blob),
    /// Of a DATE column: days since 1970-01-01.
    Date(i32),
    /// Of a TIMESTAMP column: microseconds since 1970-01-01 00:00:00 UTC.
    Timestamp(i64),
}

/// Cells, which contracts see as their list.
pub type Cells = Items<Cell>;

impl Cell {
    /// Whether it is NULL.
    pub fn is_null(&self) -> bool
        ensures { result ≡ is_null_of self.now }
    {
        matches!(self, Cell::Null)
    }

    /// A copy.
    pub fn copy(&self, alloc: Global) -> Result<Cell, Memory>
        ensures { IfOk result (λ cell. cell ≡ self.now) }
    {
        Ok(match self {
            Cell::Null => Cell::Null,
            Cell::Int(value) => Cell::Int(*value),
            Cell::Bool(value) => Cell::Bool(*value),
            Cell::Str(text) => Cell::Str(Text::of(alloc, text.text())?),
            Cell::Bytes(bytes) => Cell::Bytes(Blob::of(alloc, bytes.bytes())?),
            Cell::Date(day) => Cell::Date(*day),
            Cell::Timestamp(instant) => Cell::Timestamp(*instant),
        })
    }
}

/// A copy of each cell.
pub(crate) fn copies(alloc: Global, cells: &[Cell]) -> Result<Vec<Cell>, Memory>
    ensures { IfOk result (λ copied. copied.items ≡ cells.now) }
{
    let mut copied = Vec::with_capacity(alloc, cells.len())?;
    for cell in cells {
        copied.push(cell.copy(alloc)?)?;
    }
    Ok(copied)
}
