//! A reader's place among the rows of its lease.

ghost use Rattle.std.specs.Prelude.{◌≡◌, ◌<◌, List, length, IfOk, OnErr};
ghost use Rattle.std.specs.List.{slice_index_or};
ghost use Rattle.column_types.specs.declared.cell.Cell.{Cell};
ghost use Rattle.row_groups.specs.Places.{group_at};
ghost use Rattle.read_cursor.specs.Reading.{Finds, Gives, StandsIn, mark_at};

use crate::found::{Chunk, Found, Place};
use crate::lease::Lease;
use crate::walk::{Walk, next_match, next_rows};
use column_types::Row;
use outside::Memory;
use std::alloc::Global;
use std::marker::Model;

/// A reader's place among the matching rows of a lease. Contracts see the lease, and how many matching rows stand before
/// the next one to give.
#[derive(Drop)]
pub struct Cursor {
    lease: Lease,
    walk: Walk,
}

/// Where a cursor stood.
#[derive(Clone, Copy)]
pub struct Mark {
    walk: Walk,
}

impl Model for Cursor {
    ghost use Rattle.std.specs.Coded.{codes};
    ghost use Rattle.column_types.specs.contracts.predicate.Pred as pred_code;
    ghost use Rattle.read_cursor.specs.Reading.{Reading, Walks, reading_of};

    ghost Value = { Reading };

    ghost coded = { Prim.hlevel (codes, pred_code.the_row.coded) };

    ghost view = { λ c. reading_of c.lease c.walk };

    ghost invariant = { λ c. Walks c.lease c.walk.position c.walk.place c.walk.passed };
}

impl Cursor {
    /// A cursor that begins behind the first `offset` matching rows.
    pub fn new(lease: Lease, offset: u64) -> Cursor
        ensures { result ≡ record { lease = lease; at = offset } }
    {
        let position = lease.lo();
        let (group, place) = lease.spine().find(position).unwrap_or((0, 0));
        let walk = Walk {
            position,
            place: Place { group, place },
            passed: 0,
            skip: offset,
        };
        Cursor { lease, walk }
    }

    /// The lease.
    pub fn lease(&self) -> &Lease
        ensures { result.now ≡ self.now.lease }
    {
        &self.lease
    }

    /// Copies the chosen columns of the next matching rows: of as many as there are, at most 1,024. `End` comes exactly
    /// where all were given, `PastEnd` exactly where the offset exceeds their number, which it carries. Want of memory
    /// leaves the cursor as it was.
    pub fn next_chunk(&mut self, alloc: Global) -> Result<Chunk, Memory>
        ensures gives { IfOk result (Gives self.old self.new) }
        ensures err { OnErr result (self.new ≡ self.old) }
    {
        let mut walk = self.walk;
        let chunk = next_rows(alloc, &self.lease, &mut walk)?;
        self.walk = walk;
        Ok(chunk)
    }

    /// Goes over the next matching row, and says where it stands. `End` and `PastEnd` are those of
    /// [`Cursor::next_chunk`]. It asks for no memory.
    pub fn next_place(&mut self) -> Found
        ensures { Finds self.old self.new result }
    {
        next_match(&self.lease, &mut self.walk)
    }

    /// The row at a place that [`Cursor::next_place`] told, with all its columns.
    pub fn row(&self, place: Place) -> &Row
        requires { place.place < length (group_at self.now.lease.groups place.group) }
        ensures { (other : List Cell) → result.now ≡ slice_index_or (group_at self.now.lease.groups place.group) place.place other }
    {
        self.lease.spine().row(place.group, place.place)
    }

    /// Where the cursor stands.
    pub fn mark(&self) -> Mark
        ensures stands { StandsIn self.now.lease result }
        ensures at { mark_at result ≡ self.now.at }
    {
        Mark { walk: self.walk }
    }

    /// Goes to where it, or another cursor of its lease, stood. It asks for no memory.
    pub fn go_to(&mut self, mark: Mark)
        requires { StandsIn self.old.lease mark }
        ensures { self.new ≡ record { lease = self.old.lease; at = mark_at mark } }
    {
        self.walk = mark.walk;
    }
}
