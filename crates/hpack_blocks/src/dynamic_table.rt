ghost use Rattle.std.specs.Prelude.{◌≡◌, ◌+◌, ◌-◌, ◌<◌, ◌≤◌, [], OnOk, IfOk, length, option_copied, slice_get};
ghost use Rattle.hpack_blocks.specs.Table.{Table, size_of, list_size, newest, resized, added};

use crate::fields::Field;
use crate::sizes::field_size;
use outside::Memory;
use std::alloc::Global;
use std::collections::VecDeque;
use std::marker::Model;

/// The largest maximum of the dynamic table's size, and the first one, in octets.
pub const MAX_TABLE_SIZE: u32 = 4096;

/// The most entries that a table can have: each counts 32 octets at least.
const MAX_ENTRIES: usize = 128;

/// The dynamic table (RFC 7541, section 2.3.2). Contracts see its maximum and its entries, the
/// newest first.
#[derive(Drop)]
pub struct DynamicTable {
    entries: VecDeque<Field>,
    size: u64,
    max: u64,
}

impl Model for DynamicTable {
    ghost use Rattle.std.specs.Prelude.{◌≡◌, ◌≤◌};
    ghost use Rattle.hpack_blocks.specs.Table.{Table, list_size};

    ghost Value = { Table };

    ghost view = { λ t. record { max = t.max; entries = t.entries.items } };

    ghost invariant = { λ t. (t.size ≡ list_size t.entries.items) × (t.size ≤ t.max) × (t.max ≤ 4096) };
}

/// Drops the oldest entries until the rest has room, and gives the size of the rest.
fn drop_oldest(entries: &mut VecDeque<Field>, size: u64, room: u64) -> u64
    requires { size ≡ list_size entries.old.items }
    ensures entries { entries.new.items ≡ newest room entries.old.items }
    ensures size { result ≡ list_size entries.new.items }
    ensures within { result ≤ room }
{
    let mut size = size;
    while size > room {
        let Some(oldest) = entries.pop_back() else {
            unreachable!();
        };
        size -= field_size(&oldest);
    }
    size
}

impl DynamicTable {
    /// An empty table of the first maximum, with room for all entries that it can have.
    pub fn new(alloc: Global) -> Result<DynamicTable, Memory>
        ensures { IfOk result (λ t. t ≡ record { max = 4096; entries = [] }) }
    {
        Ok(DynamicTable {
            entries: VecDeque::with_capacity(alloc, MAX_ENTRIES)?,
            size: 0,
            max: u64::from(MAX_TABLE_SIZE),
        })
    }

    /// The entry at a place, the newest at 0.
    pub fn get(&self, place: usize) -> Option<&Field>
        ensures { option_copied result ≡ slice_get self.now.entries place }
    {
        self.entries.get(place)
    }

    /// Sets the maximum, and drops the oldest entries until the rest fits.
    pub fn resize(&mut self, max: u32)
        requires { max ≤ 4096 }
        ensures { self.new ≡ resized self.old max }
    {
        self.max = u64::from(max);
        self.size = drop_oldest(&mut self.entries, self.size, self.max);
    }

    /// Adds a field, and drops the oldest entries until all fit. One that is larger than the maximum
    /// empties the table.
    pub fn add(&mut self, field: Field) -> Result<(), Memory>
        ensures { OnOk result (self.new ≡ added self.old field) }
    {
        let size = field_size(&field);
        if size > self.max {
            self.entries.clear();
            self.size = 0;
            return Ok(());
        }
        self.size = drop_oldest(&mut self.entries, self.size, self.max - size);
        self.entries.push_front(field)?;
        self.size += size;
        Ok(())
    }
}
