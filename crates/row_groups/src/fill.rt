//! Groups behind other groups.

ghost use Rattle.std.specs.Prelude.{◌≡◌, ◌+◌, ◌<◌, ◌^◌, [], ◌∷◌, ◌++◌, length, take, IfOk, OnOk, OnErr};
ghost use Rattle.row_groups.specs.Places.{joined};
ghost use Rattle.row_groups.specs.Kept.{all_rows, Keeps};

use crate::block::{Block, Group, make_room};
use crate::slice::Slice;
use outside::Memory;
use std::alloc::Global;

/// Where the last block starts, and how many rows there are.
#[derive(Clone, Copy)]
pub(crate) struct Ends {
    pub(crate) last_start: u32,
    pub(crate) len: u32,
}

/// Adds a group behind those of full blocks and of a last one. Want of memory leaves both as they were.
pub(crate) fn add_group(
    alloc: Global,
    full: &mut Vec<Block>,
    last: &mut Vec<Group>,
    ends: Ends,
    slice: Slice,
) -> Result<Ends, Memory>
    requires keeps { Keeps full.old.items last.old.items ends.last_start ends.len }
    requires room { ends.len + length slice < 2 ^ 32 }
    ensures keeps { IfOk result (λ after. Keeps full.new.items last.new.items after.last_start after.len) }
    ensures rows { OnOk result (all_rows full.new.items last.new.items ≡ all_rows full.old.items last.old.items ++ slice ∷ []) }
    ensures len { IfOk result (λ after. after.len ≡ ends.len + length slice) }
    ensures front { take (length full.old.items) full.new.items ≡ full.old.items }
    ensures full { OnErr result (full.new.items ≡ full.old.items) }
    ensures last { OnErr result (last.new.items ≡ last.old.items) }
{
    let last_start = make_room(alloc, full, last, ends.last_start, ends.len)?;
    let len = ends.len + slice.len();
    last.push(Group::of(ends.len, slice))?;
    Ok(Ends { last_start, len })
}

/// Adds groups in their order. Want of memory leaves the full blocks that were there, and may leave some of the groups.
pub(crate) fn add_groups(
    alloc: Global,
    full: &mut Vec<Block>,
    last: &mut Vec<Group>,
    ends: Ends,
    slices: Vec<Slice>,
) -> Result<Ends, Memory>
    requires keeps { Keeps full.old.items last.old.items ends.last_start ends.len }
    requires room { ends.len + length (joined slices.items) < 2 ^ 32 }
    ensures keeps { IfOk result (λ after. Keeps full.new.items last.new.items after.last_start after.len) }
    ensures rows { OnOk result (all_rows full.new.items last.new.items ≡ all_rows full.old.items last.old.items ++ slices.items) }
    ensures front { take (length full.old.items) full.new.items ≡ full.old.items }
{
    let mut after = ends;
    for slice in slices {
        after = add_group(alloc, full, last, after, slice)?;
    }
    Ok(after)
}
