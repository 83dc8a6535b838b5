ghost use Rattle.std.specs.Prelude.{◌≡◌, ◌≤◌, [], length, drop, IfOk};
ghost use Rattle.hpack_blocks.specs.Answers.{Open, ReadsBlock, ReadsUpdates, Follows, Decodes};
ghost use Rattle.hpack_blocks.specs.Table.{Table};
ghost use Rattle.hpack_blocks.specs.Block.{block_of, fields_from, is_update};

use crate::dynamic_table::DynamicTable;
use crate::faults::BlockFault;
use crate::fields::FieldList;
use crate::listed::{Listed, MAX_LIST_SIZE};
use crate::reading::{read_field, read_update};
use outside::Memory;
use std::alloc::Global;
use std::marker::Model;

/// What a decoder answers to the next block.
#[derive(Clone, Copy)]
pub enum State {
    /// What the block says.
    Open,
    /// `BadBlock`, since an earlier block wasn't in the grammar.
    Bad,
    /// `Memory`, since it ran out in an earlier block.
    Lost,
}

/// The decoder of a connection's header blocks (RFC 7541). Contracts see its dynamic table, or that
/// it answers one fault from now on.
#[derive(Drop)]
pub struct Decoder {
    table: DynamicTable,
    state: State,
}

impl Model for Decoder {
    ghost use Rattle.hpack_blocks.specs.Answers.{Standing};
    ghost use Rattle.hpack_blocks.specs.Standing.{standing_of};

    ghost Value = { Standing };

    ghost view = { λ d. standing_of d.state d.table };
}

impl Decoder {
    /// The decoder of a new connection: an empty table of 4,096 octets.
    pub fn new(alloc: Global) -> Result<Decoder, Memory>
        ensures { IfOk result (λ d. d ≡ Open (record { max = 4096; entries = [] })) }
    {
        Ok(Decoder {
            table: DynamicTable::new(alloc)?,
            state: State::Open,
        })
    }

    /// The fields of the next block, and the dynamic table goes on behind it.
    ///
    /// `BadBlock` comes exactly where the block isn't in the grammar, and then for every later block.
    /// `TooLarge` comes exactly where the block is good and the size of its list is above 16,384; the
    /// table is then as after the block. After `Memory` every later block is answered so.
    pub fn decode(&mut self, alloc: Global, block: &[u8]) -> Result<FieldList, BlockFault>
        // By the grammar: what the block says of the fields and of the table behind it.
        ensures grammar { (t : Table) → self.old ≡ Open t → Follows result t block.now self.new }
        // By the function that reads a block, and what is answered after a fault.
        ensures exact { Decodes self.old block.now result self.new }
    {
        self.decode_next(alloc, block)
    }

    /// The answer to the next block.
    fn decode_next(&mut self, alloc: Global, block: &[u8]) -> Result<FieldList, BlockFault>
        ensures { Decodes self.old block.now result self.new }
    {
        match self.state {
            State::Bad => return Err(BlockFault::BadBlock),
            State::Lost => return Err(BlockFault::Memory),
            State::Open => {}
        }
        match read_block(alloc, &mut self.table, block) {
            Ok(list) => {
                if list.size > MAX_LIST_SIZE {
                    return Err(BlockFault::TooLarge { size: list.size });
                }
                Ok(FieldList::from_vec(list.fields))
            }
            Err(BlockFault::Memory) => {
                self.state = State::Lost;
                Err(BlockFault::Memory)
            }
            Err(BlockFault::BadBlock) => {
                self.state = State::Bad;
                Err(BlockFault::BadBlock)
            }
            Err(BlockFault::TooLarge { size: _ }) => unreachable!(),
        }
    }
}

/// Whether a representation that begins so is a size update (RFC 7541, section 6.3).
fn is_size_update(first: u8) -> bool
    ensures { result ≡ is_update first }
{
    32 <= first && first < 64
}

/// Reads the size updates at the start of a block, and gives the place behind them.
fn read_updates(table: &mut DynamicTable, block: &[u8]) -> Result<usize, BlockFault>
    ensures { ReadsUpdates result block.now (block_of table.old block.now) table.new }
{
    let mut at = 0;
    while at < block.len() {
        if !is_size_update(block[at]) {
            return Ok(at);
        }
        let used = read_update(table, &block[at..])?;
        at += used;
    }
    Ok(at)
}

/// Reads the fields behind the size updates.
fn read_fields(alloc: Global, table: &mut DynamicTable, bytes: &[u8]) -> Result<Listed, BlockFault>
    ensures { ReadsBlock result (fields_from table.old 0 bytes.now) table.new }
{
    let mut list = Listed::new(alloc)?;
    let mut at = 0;
    while at < bytes.len() {
        let used = read_field(alloc, table, &mut list, &bytes[at..])?;
        at += used;
    }
    Ok(list)
}

/// Reads a whole block.
fn read_block(alloc: Global, table: &mut DynamicTable, block: &[u8]) -> Result<Listed, BlockFault>
    ensures { ReadsBlock result (block_of table.old block.now) table.new }
{
    let at = read_updates(table, block)?;
    read_fields(alloc, table, &block[at..])
}
