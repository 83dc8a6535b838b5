//! Rows of a line.

ghost use Rattle.std.specs.Prelude.{◌≡◌, ◌≤◌, IfOk, IsTrue, All};
ghost use Rattle.std.specs.List.{sum_by};
ghost use Rattle.column_types.specs.Row.{Fits};
ghost use Rattle.column_types.specs.Sizes.{bytes_of_row};

use crate::stop::Stop;
use crate::words::signed_in;
use column_types::{Cell, Row, Schema, fits};
use outside::Text;
use std::alloc::Global;

/// Rows, and as many bytes as their texts have.
#[derive(Drop)]
pub(crate) struct Batch {
    pub(crate) rows: Vec<Row>,
    pub(crate) bytes: u64,
    ghost within: { sum_by bytes_of_row rows.items ≤ bytes },
}

impl Batch {
    /// No row.
    pub(crate) fn new(alloc: Global) -> Batch {
        Batch {
            rows: Vec::new(alloc),
            bytes: 0,
        }
    }

    /// A row more, behind the others.
    pub(crate) fn with(self, alloc: Global, id: i64, tag: Option<&str>) -> Result<Batch, Stop> {
        let mut cells = Vec::new(alloc);
        cells.push(Cell::Int(id))?;
        let mut length = 0;
        match tag {
            Some(tag) => {
                length = tag.len() as u64;
                cells.push(Cell::Str(Text::of(alloc, tag)?))?;
            }
            None => cells.push(Cell::Null)?,
        }
        let Batch { mut rows, bytes } = self;
        rows.push(Row::from_vec(cells))?;
        let Some(bytes) = bytes.checked_add(length) else {
            return Err(Stop::Unread);
        };
        Ok(Batch { rows, bytes })
    }
}

/// Rows as `ID` or `ID:TAG`, the tag NULL where none is told.
pub(crate) fn rows_in(alloc: Global, text: &str) -> Result<Batch, Stop> {
    let mut batch = Batch::new(alloc);
    for word in text.split(' ') {
        batch = match word.split_once(':') {
            _ if word.is_empty() => batch,
            Some((id, tag)) => batch.with(alloc, signed_in(id)?, Some(tag))?,
            None => batch.with(alloc, signed_in(word)?, None)?,
        };
    }
    Ok(batch)
}

/// So many rows, with ids from `first` on.
pub(crate) fn rows_from(alloc: Global, first: i64, count: u32) -> Result<Batch, Stop> {
    let mut batch = Batch::new(alloc);
    for number in 0..count {
        let id = first.wrapping_add(i64::from(number));
        batch = batch.with(alloc, id, None)?;
    }
    Ok(batch)
}

/// Whether all fit.
pub(crate) fn all_fit(schema: &Schema, rows: &[Row]) -> bool
    ensures { IsTrue result → All (Fits schema.now) rows.now }
{
    rows.iter().all(|row| fits(schema, row))
}
