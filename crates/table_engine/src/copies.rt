//! Copies of what is kept.

ghost use Rattle.std.specs.Prelude.{◌≡◌, IfOk};

use crate::kept::KeptEntry;
use column_types::Row;
use outside::Memory;
use std::alloc::Global;
use table_model::{Entry, Rows};

/// The same entries.
pub(crate) fn copy_entries(alloc: Global, entries: &[KeptEntry]) -> Result<Vec<Entry>, Memory>
    ensures { IfOk result (λ copy. copy.items ≡ entries.now) }
{
    let mut copy = Vec::with_capacity(alloc, entries.len())?;
    for entry in entries {
        copy.push(entry.copy(alloc)?)?;
    }
    Ok(copy)
}

/// The same rows.
pub(crate) fn copy_rows(alloc: Global, rows: &[Row]) -> Result<Rows, Memory>
    ensures { IfOk result (λ copy. copy ≡ rows.now) }
{
    let mut copy = Vec::with_capacity(alloc, rows.len())?;
    for row in rows {
        copy.push(row.copy(alloc)?)?;
    }
    Ok(Rows::from_vec(copy))
}
