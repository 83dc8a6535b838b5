//! The groups that grow.

ghost use Rattle.std.specs.Prelude.{◌≡◌, ◌+◌, ◌<◌, ◌≤◌, ◌^◌, [], ◌∷◌, ◌++◌, length, IfOk, OnOk, OnErr, MatchOption};
ghost use Rattle.std.specs.Arc.{arc_value};
ghost use Rattle.row_groups.specs.Places.{joined, IsPlace};

use crate::slice::{Rows, Slice};
use crate::spine::Spine;
use column_types::Row;
use outside::Memory;
use std::alloc::Global;
use std::marker::Model;
use std::sync::Arc;

/// The rows pushed so far, in groups. Contracts see the list of the groups, each the list of its rows.
#[derive(Drop)]
pub struct Groups {
    spine: Arc<Spine>,
}

impl Model for Groups {
    ghost use Rattle.std.specs.Prelude.{List};
    ghost use Rattle.std.specs.Arc.{arc_value};
    ghost use Rattle.column_types.specs.declared.cell.Cell.{Cell};

    ghost Value = { List (List (List Cell)) };

    ghost view = { λ g. arc_value g.spine };
}

impl Groups {
    /// No group.
    pub fn new(alloc: Global) -> Result<Groups, Memory>
        ensures { IfOk result (λ groups. groups ≡ []) }
    {
        Ok(Groups {
            spine: Arc::new(alloc, Spine::new(alloc))?,
        })
    }

    /// Adds rows, of which there are some, as a group behind the others, where there are fewer than 2^32 rows with them.
    /// It copies no row. Spines that were given out stay as they are. Want of memory leaves the groups as they were.
    pub fn push(&mut self, alloc: Global, rows: Vec<Row>) -> Result<(), Memory>
        requires some { 0 < length rows.items }
        requires room { length (joined self.old) + length rows.items < 2 ^ 32 }
        ensures ok { OnOk result (self.new ≡ self.old ++ rows.items ∷ []) }
        ensures err { OnErr result (self.new ≡ self.old) }
    {
        let rows = Arc::new(alloc, Rows::from_vec(rows))?;
        let Some(slice) = Slice::whole(rows) else {
            unreachable!()
        };
        self.push_slice(alloc, slice)
    }

    /// Adds a slice as a group, like [`push`](Groups::push).
    pub fn push_slice(&mut self, alloc: Global, slice: Slice) -> Result<(), Memory>
        requires { length (joined self.old) + length slice < 2 ^ 32 }
        ensures ok { OnOk result (self.new ≡ self.old ++ slice ∷ []) }
        ensures err { OnErr result (self.new ≡ self.old) }
    {
        if let Some(alone) = Arc::get_mut(&mut self.spine) {
            return alone.add(alloc, slice);
        }
        let mut next = self.spine.share(alloc)?;
        next.add(alloc, slice)?;
        self.hold(alloc, next)
    }

    /// Adds slices in their order, each as a group, like [`push`](Groups::push): all of them, or none at want of memory.
    pub fn push_all(&mut self, alloc: Global, slices: Vec<Slice>) -> Result<(), Memory>
        requires { length (joined self.old) + length (joined slices.items) < 2 ^ 32 }
        ensures ok { OnOk result (self.new ≡ self.old ++ slices.items) }
        ensures err { OnErr result (self.new ≡ self.old) }
    {
        if let Some(alone) = Arc::get_mut(&mut self.spine) {
            return alone.add_all(alloc, slices);
        }
        let mut next = self.spine.share(alloc)?;
        next.add_all(alloc, slices)?;
        self.hold(alloc, next)
    }

    // Goes on with another spine.
    fn hold(&mut self, alloc: Global, next: Spine) -> Result<(), Memory>
        ensures ok { OnOk result (self.new ≡ next) }
        ensures err { OnErr result (self.new ≡ self.old) }
    {
        self.spine = Arc::new(alloc, next)?;
        Ok(())
    }

    /// How many rows there are.
    pub fn len(&self) -> u64
        ensures value { result ≡ length (joined self.now) }
        ensures few { result < 2 ^ 32 }
    {
        self.spine.len()
    }

    /// The group of the row at this position, and its place in it. None exactly where there are no more than `position`
    /// rows.
    pub fn find(&self, position: u64) -> Option<(u32, u32)>
        ensures { MatchOption result (length (joined self.now) ≤ position) (λ at. IsPlace self.now position at.0 at.1) }
    {
        self.spine.find(position)
    }

    /// The rows so far. It asks for no memory, and copies nothing but the `Arc`, which can be refused.
    pub fn spine(&self) -> Result<Arc<Spine>, Memory>
        ensures { IfOk result (λ spine. arc_value spine ≡ self.now) }
    {
        Ok(Arc::try_clone(&self.spine)?)
    }
}
