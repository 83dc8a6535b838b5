//! A walk over the rows of a lease.

ghost use Rattle.std.specs.Prelude.{◌≡◌, ◌+◌, ◌<◌, ◌≤◌, ◌^◌, List, length, true, IfOk, if◌then◌else◌};
ghost use Rattle.std.specs.List.{AllByRecursion};
ghost use Rattle.row_groups.specs.Places.{joined, group_at, HasRows, IsPlace};
ghost use Rattle.column_types.specs.declared.cell.Cell.{Cell};
ghost use Rattle.read_cursor.specs.Lease.{keeps};
ghost use Rattle.read_cursor.specs.Reading.{Finds, Gives, IsMatch, Steps, Walks, chunk_from, reading_of};

use crate::found::{Chunk, Found, MAX_CHUNK_ROWS, Place};
use crate::lease::Lease;
use column_types::{Pred, Row, Truth, project, truth};
use outside::Memory;
use row_groups::Spine;
use sqlite_items::Items;
use std::alloc::Global;

/// Where a cursor stands: at a position and its place, with `passed` matching rows of the lease behind it, and `skip`
/// matching rows still to skip.
#[derive(Clone, Copy)]
pub(crate) struct Walk {
    pub(crate) position: u64,
    pub(crate) place: Place,
    pub(crate) passed: u64,
    pub(crate) skip: u64,
}

/// Whether a row is kept.
fn is_kept(pred: &Pred, row: &Row) -> bool
    ensures { result ≡ keeps pred.now row.now }
{
    matches!(truth(pred, row), Truth::Yes)
}

/// The place behind this one. `rows` are those of its group.
fn place_behind(spine: &Spine, place: Place, rows: &[Row], _position: u64) -> Place
    requires here { IsPlace spine.now _position place.group place.place }
    requires rows { rows.now ≡ group_at spine.now place.group }
    requires each { AllByRecursion HasRows spine.now }
    requires few { length (joined spine.now) < 2 ^ 32 }
    ensures { _position + 1 < length (joined spine.now) → IsPlace spine.now (_position + 1) result.group result.place }
{
    if (place.place as usize) + 1 < rows.len() {
        Place {
            group: place.group,
            place: place.place + 1,
        }
    } else {
        Place {
            group: place.group + 1,
            place: 0,
        }
    }
}

/// Goes over the row at the walk's position, and says whether it matches.
fn step(lease: &Lease, walk: &mut Walk) -> bool
    requires walks { Walks lease.now walk.old.position walk.old.place walk.old.passed }
    requires more { walk.old.position < lease.now.hi }
    ensures steps { Steps lease.now walk.old walk.new (if result then 1 else 0) }
    ensures row { result ≡ true → IsMatch lease.now walk.old.place walk.old.passed }
{
    let place = walk.place;
    let rows = lease.spine().rows(place.group);
    let is_match = is_kept(lease.pred(), &rows[place.place as usize]);
    walk.place = place_behind(lease.spine(), place, rows, walk.position);
    walk.position += 1;
    walk.passed += u64::from(is_match);
    is_match
}

/// Goes to the next matching row that isn't to be skipped, and over it.
pub(crate) fn next_match(lease: &Lease, walk: &mut Walk) -> Found
    requires { Walks lease.now walk.old.position walk.old.place walk.old.passed }
    ensures walks { Walks lease.now walk.new.position walk.new.place walk.new.passed }
    ensures finds { Finds (reading_of lease.now walk.old) (reading_of lease.now walk.new) result }
{
    while walk.position < lease.hi() {
        let place = walk.place;
        if step(lease, walk) {
            if walk.skip == 0 {
                return Found::Row(place);
            }
            walk.skip -= 1;
        }
    }
    if walk.skip == 0 {
        Found::End
    } else {
        Found::PastEnd {
            matched: walk.passed,
        }
    }
}

/// These rows as a chunk, of which there are at most 1,024.
fn chunk_of(rows: Vec<Row>) -> Chunk
    requires { length rows.items ≤ MAX_CHUNK_ROWS }
    ensures { result ≡ chunk_from rows.items }
{
    if rows.is_empty() {
        return Chunk::End;
    }
    let count = rows.len() as u32;
    Chunk::Rows {
        rows: Items::from_vec(rows),
        count,
    }
}

/// Copies the chosen columns of the next matching rows.
pub(crate) fn next_rows(alloc: Global, lease: &Lease, walk: &mut Walk) -> Result<Chunk, Memory>
    requires { Walks lease.now walk.old.position walk.old.place walk.old.passed }
    ensures walks { IfOk result (λ _. Walks lease.now walk.new.position walk.new.place walk.new.passed) }
    ensures gives { IfOk result (Gives (reading_of lease.now walk.old) (reading_of lease.now walk.new)) }
{
    let mut rows = Vec::new(alloc);
    while rows.len() < MAX_CHUNK_ROWS {
        match next_match(lease, walk) {
            Found::Row(place) => {
                let row = lease.spine().row(place.group, place.place);
                rows.push(project(alloc, lease.fields(), row)?)?;
            }
            Found::End => return Ok(chunk_of(rows)),
            Found::PastEnd { matched } => return Ok(Chunk::PastEnd { matched }),
        }
    }
    Ok(chunk_of(rows))
}
