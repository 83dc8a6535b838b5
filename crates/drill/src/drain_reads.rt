//! Rows of one node, by a lease of it.

ghost use Rattle.std.specs.Prelude.{◌≡◌, List, [], ◌∷◌, ◌++◌, length, take, drop, map, min, IfOk, OnOk};
ghost use Rattle.column_types.specs.Fields.{projected};
ghost use Rattle.read_cursor.specs.Lease.{matching};
ghost use Rattle.drill.specs.Reads.{ReadsOne, rows_behind};

use column_types::{Row, project};
use outside::Memory;
use read_cursor::{Chunk, Cursor, Found, Lease};
use std::alloc::Global;
use table_model::Rows;

// Reads the next row, and says whether there was one.
fn read_one(alloc: Global, cursor: &mut Cursor, rows: &mut Vec<Row>) -> Result<bool, Memory>
    ensures { IfOk result (ReadsOne cursor.old cursor.new rows.old.items rows.new.items) }
{
    let Found::Row(place) = cursor.next_place() else {
        return Ok(false);
    };
    let row = project(alloc, cursor.lease().fields(), cursor.row(place))?;
    rows.push(row)?;
    Ok(true)
}

/// Reads up to `count` rows behind the first ones, which were read.
pub(crate) fn read_some(
    alloc: Global,
    lease: Lease,
    rows: &mut Vec<Row>,
    count: u32,
) -> Result<(), Memory>
    ensures { OnOk result (rows.new.items ≡ rows.old.items ++ take count (rows_behind lease (length rows.old.items))) }
{
    let mut cursor = Cursor::new(lease, rows.len() as u64);
    for _ in 0..count {
        if !read_one(alloc, &mut cursor, rows)? {
            return Ok(());
        }
    }
    Ok(())
}

/// Reads the rows behind the first ones, which were read, up to the last one. They all come behind `rows`.
pub(crate) fn read_rest(
    alloc: Global,
    lease: Lease,
    first: Vec<Row>,
    rows: &mut Rows,
) -> Result<(), Memory>
    ensures { OnOk result (rows.new ≡ rows.old ++ (first.items ++ rows_behind lease (length first.items))) }
{
    let mut cursor = Cursor::new(lease, first.len() as u64);
    rows.append(Rows::from_vec(first))?;
    loop {
        match cursor.next_chunk(alloc)? {
            Chunk::Rows {
                rows: next,
                count: _,
            } => rows.append(next)?,
            Chunk::End | Chunk::PastEnd { matched: _ } => return Ok(()),
        }
    }
}

// How many of the first `most` rows there are.
fn count_of(lease: Lease, most: usize) -> usize
    ensures { result ≡ min most (length (rows_behind lease 0)) }
{
    let mut cursor = Cursor::new(lease, most as u64);
    match cursor.next_place() {
        Found::PastEnd { matched } => matched as usize,
        Found::Row(_) | Found::End => most,
    }
}

/// Divides the rows that were read of a node between its children: those of the left one, whose lease this is, come first.
pub(crate) fn divide(lease: Lease, rows: Vec<Row>) -> Result<(Vec<Row>, Vec<Row>), Memory>
    ensures left { IfOk result (λ both. both.0.items ≡ take (length (rows_behind lease 0)) rows.items) }
    ensures right { IfOk result (λ both. both.1.items ≡ drop (length (rows_behind lease 0)) rows.items) }
{
    let mut left = rows;
    let count = count_of(lease, left.len());
    let right = left.split_off(count)?;
    Ok((left, right))
}
