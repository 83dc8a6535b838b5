//! All groups so far.

ghost use Rattle.std.specs.Prelude.{◌≡◌, ◌+◌, ◌<◌, ◌≤◌, ◌^◌, List, [], ◌∷◌, ◌++◌, length, IfOk, OnOk, OnErr, MatchOption};
ghost use Rattle.std.specs.List.{slice_index_or, AllByRecursion};
ghost use Rattle.column_types.specs.declared.cell.Cell.{Cell};
ghost use Rattle.row_groups.specs.Places.{joined, group_at, IsPlace, HasRows};

use crate::block::{
    BLOCK_GROUPS, Block, Group, block_with, place_with, share_blocks, share_groups,
};
use crate::fill::{Ends, add_group, add_groups};
use crate::slice::Slice;
use column_types::Row;
use outside::Memory;
use std::alloc::Global;
use std::marker::Model;
use std::sync::Arc;

/// Groups of rows that never change. Contracts see the list of the groups, each the list of its rows. It has fewer than
/// 2^32 rows.
///
/// A position counts all rows from 0, group after group. A place counts the rows of one group.
#[derive(Drop)]
pub struct Spine {
    full: Vec<Block>,
    last: Vec<Group>,
    last_start: u32,
    len: u32,
}

impl Model for Spine {
    ghost use Rattle.std.specs.Prelude.{List};
    ghost use Rattle.column_types.specs.declared.cell.Cell.{Cell};
    ghost use Rattle.row_groups.specs.Kept.{all_rows, Keeps};

    ghost Value = { List (List (List Cell)) };

    ghost view = { λ s. all_rows s.full.items s.last.items };

    ghost invariant = { λ s. Keeps s.full.items s.last.items s.last_start s.len };
}

impl Spine {
    /// No group.
    pub(crate) fn new(alloc: Global) -> Spine
        ensures { result ≡ [] }
    {
        Spine {
            full: Vec::new(alloc),
            last: Vec::new(alloc),
            last_start: 0,
            len: 0,
        }
    }

    /// How many rows there are.
    pub fn len(&self) -> u64
        ensures value { result ≡ length (joined self.now) }
        ensures few { result < 2 ^ 32 }
    {
        u64::from(self.len)
    }

    /// The group of the row at this position, and its place in it. None exactly where there are no more than `position`
    /// rows.
    pub fn find(&self, position: u64) -> Option<(u32, u32)>
        ensures { MatchOption result (length (joined self.now) ≤ position) (λ at. IsPlace self.now position at.0 at.1) }
    {
        if u64::from(self.len) <= position {
            return None;
        }
        let position = position as u32;
        if self.last_start <= position {
            let (number, place) = place_with(self.last.as_slice(), position);
            let before = self.full.len() * BLOCK_GROUPS;
            return Some(((before + number) as u32, place));
        }
        let block = block_with(self.full.as_slice(), position);
        let (number, place) = place_with(self.full[block].groups(), position);
        let before = block * BLOCK_GROUPS;
        Some(((before + number) as u32, place))
    }

    /// The rows of a group that is there. Each group has a row.
    pub fn rows(&self, group: u32) -> &[Row]
        requires { group < length self.now }
        ensures rows { result.now ≡ group_at self.now group }
        ensures each { AllByRecursion HasRows self.now }
        ensures few { length (joined self.now) < 2 ^ 32 }
    {
        let block = group as usize / BLOCK_GROUPS;
        let number = group as usize % BLOCK_GROUPS;
        if block < self.full.len() {
            self.full[block].groups()[number].rows()
        } else {
            self.last[number].rows()
        }
    }

    /// The row at a place of a group, where both are there.
    pub fn row(&self, group: u32, place: u32) -> &Row
        requires { place < length (group_at self.now group) }
        ensures { (other : List Cell) → result.now ≡ slice_index_or (group_at self.now group) place other }
    {
        &self.rows(group)[place as usize]
    }

    /// Adds a group behind the others. Want of memory leaves the spine as it was.
    pub(crate) fn add(&mut self, alloc: Global, slice: Slice) -> Result<(), Memory>
        requires { length (joined self.old) + length slice < 2 ^ 32 }
        ensures ok { OnOk result (self.new ≡ self.old ++ slice ∷ []) }
        ensures err { OnErr result (self.new ≡ self.old) }
    {
        let ends = Ends {
            last_start: self.last_start,
            len: self.len,
        };
        let after = add_group(alloc, &mut self.full, &mut self.last, ends, slice)?;
        self.last_start = after.last_start;
        self.len = after.len;
        Ok(())
    }

    /// Adds groups behind the others, in their order. Want of memory leaves the spine as it was.
    pub(crate) fn add_all(&mut self, alloc: Global, slices: Vec<Slice>) -> Result<(), Memory>
        requires { length (joined self.old) + length (joined slices.items) < 2 ^ 32 }
        ensures ok { OnOk result (self.new ≡ self.old ++ slices.items) }
        ensures err { OnErr result (self.new ≡ self.old) }
    {
        let mut slices = slices;
        if slices.len() != 1 {
            return self.add_several(alloc, slices);
        }
        match slices.pop() {
            Some(slice) => self.add(alloc, slice),
            None => Ok(()),
        }
    }

    // Adds any number of groups. It holds the last block as it was until all of them are there.
    fn add_several(&mut self, alloc: Global, slices: Vec<Slice>) -> Result<(), Memory>
        requires { length (joined self.old) + length (joined slices.items) < 2 ^ 32 }
        ensures ok { OnOk result (self.new ≡ self.old ++ slices.items) }
        ensures err { OnErr result (self.new ≡ self.old) }
    {
        let blocks = self.full.len();
        let ends = Ends {
            last_start: self.last_start,
            len: self.len,
        };
        let before = share_groups(alloc, self.last.as_slice())?;
        match add_groups(alloc, &mut self.full, &mut self.last, ends, slices) {
            Ok(after) => {
                self.last_start = after.last_start;
                self.len = after.len;
                Ok(())
            }
            Err(memory) => {
                self.full.truncate(blocks);
                self.last = before;
                Err(memory)
            }
        }
    }

    /// A spine of the same groups, without a copy of a row.
    pub(crate) fn share(&self, alloc: Global) -> Result<Spine, Memory>
        ensures { IfOk result (λ spine. spine ≡ self.now) }
    {
        Ok(Spine {
            full: share_blocks(alloc, self.full.as_slice())?,
            last: share_groups(alloc, self.last.as_slice())?,
            last_start: self.last_start,
            len: self.len,
        })
    }
}
