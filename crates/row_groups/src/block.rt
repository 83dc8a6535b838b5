//! Groups of rows, and blocks of groups.

ghost use Rattle.std.specs.Prelude.{◌≡◌, ◌+◌, ◌<◌, [], ◌∷◌, ◌++◌, length, take, IfOk, OnOk, OnErr};
ghost use Rattle.std.specs.List.{slice_index_or};
ghost use Rattle.std.specs.Vec.{vec_len, vec_capacity};
ghost use Rattle.row_groups.specs.Starts.{IsAmong, Covers};
ghost use Rattle.row_groups.specs.Kept.{PlacedGroup, group_start, group_size, block_start, block_size, all_rows, Keeps};

use crate::slice::Slice;
use column_types::Row;
use outside::Memory;
use std::alloc::Global;
use std::marker::Model;
use std::mem;
use std::sync::Arc;

/// How many groups a full block has.
pub const BLOCK_GROUPS: usize = 256;

/// The rows of one push, and the position of the first of them.
#[derive(Drop)]
pub(crate) struct Group {
    start: u32,
    slice: Slice,
}

impl Model for Group {
    ghost use Rattle.row_groups.specs.Kept.{PlacedGroup};

    ghost Value = { PlacedGroup };

    ghost view = { λ g. record { start = g.start; rows = g.slice } };
}

impl Group {
    /// The group of these rows, which start at this position.
    pub(crate) fn of(start: u32, slice: Slice) -> Group
        ensures { result ≡ record { start = start; rows = slice } }
    {
        Group { start, slice }
    }

    /// The position of its first row.
    pub(crate) fn start(&self) -> u32
        ensures { result ≡ self.now.start }
    {
        self.start
    }

    /// Its rows.
    pub(crate) fn rows(&self) -> &[Row]
        ensures { result.now ≡ self.now.rows }
    {
        self.slice.rows()
    }

    /// The same group, without a copy of its rows.
    fn share(&self) -> Result<Group, Memory>
        ensures { IfOk result (λ group. group ≡ self.now) }
    {
        Ok(Group {
            start: self.start,
            slice: self.slice.share()?,
        })
    }
}

/// A full block, and the position of its first row.
#[derive(Drop)]
pub(crate) struct Block {
    start: u32,
    groups: Arc<Vec<Group>>,
}

impl Model for Block {
    ghost use Rattle.std.specs.Arc.{arc_value};
    ghost use Rattle.row_groups.specs.Kept.{PlacedBlock};

    ghost Value = { PlacedBlock };

    ghost view = { λ b. record { start = b.start; groups = (arc_value b.groups).items } };
}

impl Block {
    /// The position of its first row.
    pub(crate) fn start(&self) -> u32
        ensures { result ≡ self.now.start }
    {
        self.start
    }

    /// Its groups.
    pub(crate) fn groups(&self) -> &[Group]
        ensures { result.now ≡ self.now.groups }
    {
        self.groups.as_slice()
    }

    /// The same block, without a copy of its groups.
    fn share(&self) -> Result<Block, Memory>
        ensures { IfOk result (λ block. block ≡ self.now) }
    {
        Ok(Block {
            start: self.start,
            groups: Arc::try_clone(&self.groups)?,
        })
    }
}

/// The same groups, without a copy of their rows, and room for those of a full block.
pub(crate) fn share_groups(alloc: Global, groups: &[Group]) -> Result<Vec<Group>, Memory>
    ensures { IfOk result (λ shared. shared.items ≡ groups.now) }
{
    let mut shared = Vec::with_capacity(alloc, groups.len().max(BLOCK_GROUPS))?;
    for group in groups {
        shared.push(group.share()?)?;
    }
    Ok(shared)
}

/// The same blocks, without a copy of their groups, and room for one more.
pub(crate) fn share_blocks(alloc: Global, blocks: &[Block]) -> Result<Vec<Block>, Memory>
    ensures { IfOk result (λ shared. shared.items ≡ blocks.now) }
{
    let mut shared = Vec::with_capacity(alloc, blocks.len().saturating_add(1))?;
    for block in blocks {
        shared.push(block.share()?)?;
    }
    Ok(shared)
}

/// Moves the last block, which starts at this position, behind the full ones, and leaves an empty one. Want of memory
/// leaves both as they were.
fn seal(
    alloc: Global,
    full: &mut Vec<Block>,
    start: u32,
    last: &mut Vec<Group>,
) -> Result<(), Memory>
    ensures full { OnOk result (full.new.items ≡ full.old.items ++ record { start = start; groups = last.old.items } ∷ []) }
    ensures last { OnOk result (last.new.items ≡ []) }
    ensures spare { OnOk result (vec_len last.new < vec_capacity last.new) }
    ensures full_err { OnErr result (full.new.items ≡ full.old.items) }
    ensures last_err { OnErr result (last.new.items ≡ last.old.items) }
{
    full.reserve(1)?;
    let empty = Vec::with_capacity(alloc, BLOCK_GROUPS)?;
    let groups = mem::replace(last, empty);
    match Arc::new(alloc, groups) {
        Ok(groups) => {
            full.push(Block { start, groups })?;
            Ok(())
        }
        Err(refused) => {
            *last = refused.value;
            Err(Memory)
        }
    }
}

/// Makes room for one more group in the last block: where it is full it moves behind the full ones. Gives the position
/// where the last block starts then. Want of memory leaves both as they were.
pub(crate) fn make_room(
    alloc: Global,
    full: &mut Vec<Block>,
    last: &mut Vec<Group>,
    last_start: u32,
    len: u32,
) -> Result<u32, Memory>
    requires { Keeps full.old.items last.old.items last_start len }
    ensures keeps { IfOk result (λ start. Keeps full.new.items last.new.items start len) }
    ensures room { OnOk result (length last.new.items < BLOCK_GROUPS) }
    ensures spare { OnOk result (vec_len last.new < vec_capacity last.new) }
    ensures front { take (length full.old.items) full.new.items ≡ full.old.items }
    ensures same { OnOk result (all_rows full.new.items last.new.items ≡ all_rows full.old.items last.old.items) }
    ensures full { OnErr result (full.new.items ≡ full.old.items) }
    ensures last { OnErr result (last.new.items ≡ last.old.items) }
{
    if last.len() < BLOCK_GROUPS {
        last.reserve(1)?;
        return Ok(last_start);
    }
    seal(alloc, full, last_start, last)?;
    Ok(len)
}

/// The number of the group that has the row at this position.
pub(crate) fn group_with(groups: &[Group], position: u32) -> usize
    requires { IsAmong group_start group_size groups.now position }
    ensures { Covers group_start group_size groups.now position result }
{
    groups.partition_point(|group| group.start() <= position) - 1
}

/// The number of the block that has the row at this position.
pub(crate) fn block_with(blocks: &[Block], position: u32) -> usize
    requires { IsAmong block_start block_size blocks.now position }
    ensures { Covers block_start block_size blocks.now position result }
{
    blocks.partition_point(|block| block.start() <= position) - 1
}

/// The number of the group that has the row at this position, and its place there.
pub(crate) fn place_with(groups: &[Group], position: u32) -> (usize, u32)
    requires { IsAmong group_start group_size groups.now position }
    ensures covers { Covers group_start group_size groups.now position result.0 }
    ensures place { (other : PlacedGroup) → group_start (slice_index_or groups.now result.0 other) + result.1 ≡ position }
{
    let number = group_with(groups, position);
    let group = &groups[number];
    (number, position - group.start())
}
