ghost use Rattle.std.specs.Prelude.{◌≡◌, ◌+◌, ◌<◌, ◌≤◌, length, MatchOption, IfOk, None, Some};
ghost use Rattle.hpack_blocks.specs.Table.{entry_at};
ghost use Rattle.hpack_blocks.specs.Answers.{Gives, ReadsField};
ghost use Rattle.hpack_blocks.specs.Reading.{name_at, literal_at, indexed_at, field_at, update_at};
ghost use Rattle.hpack_blocks.specs.Texts.{octets_in, field_in};

use crate::dynamic_table::{DynamicTable, MAX_TABLE_SIZE};
use crate::faults::BlockFault;
use crate::listed::{FieldText, Listed};
use crate::static_table::{STATIC_LEN, static_entry};
use crate::strings::{Text, read_number, read_string};
use std::alloc::Global;

/// The name and value of an index: 1 to 61 are the static table's, the next is the newest entry of
/// the dynamic table (RFC 7541, section 2.3.3).
fn entry_of(table: &DynamicTable, index: u32) -> Option<(&[u8], &[u8])>
    ensures { MatchOption result (entry_at table.now.entries index ≡ None)
        (λ x. entry_at table.now.entries index ≡ Some (record { name = x.0.now; value = x.1.now })) }
{
    if index == 0 {
        return None;
    }
    let place = index as usize - 1;
    if place < STATIC_LEN {
        let (name, value) = static_entry(place);
        return Some((name.as_bytes(), value.as_bytes()));
    }
    match table.get(place - STATIC_LEN) {
        Some(field) => Some((field.name.bytes(), field.value.bytes())),
        None => None,
    }
}

/// An indexed field (RFC 7541, section 6.1).
#[tactic(auto, unfolding(crate::specs::Reading::indexed_at))]
fn read_indexed<'a>(
    table: &'a DynamicTable,
    bytes: &[u8],
) -> Result<(FieldText<'a>, usize), BlockFault>
    ensures reads { Gives (λ x. (field_in x.0, x.1)) result (indexed_at table.now.entries bytes.now) }
    ensures within { IfOk result (λ x. (1 ≤ x.1) × (x.1 ≤ length bytes.now)) }
{
    let (index, used) = read_number(bytes, 7)?;
    let Some((name, value)) = entry_of(table, index) else {
        return Err(BlockFault::BadBlock);
    };
    let (name, value) = (Text::InPlace(name), Text::InPlace(value));
    Ok((FieldText { name, value }, used))
}

/// The name of a literal: that of an entry, or for index 0 a string.
#[tactic(auto, unfolding(crate::specs::Reading::name_at))]
fn read_name<'a>(
    alloc: Global,
    table: &'a DynamicTable,
    index: u32,
    bytes: &'a [u8],
) -> Result<(Text<'a>, usize), BlockFault>
    ensures reads { Gives (λ x. (octets_in x.0, x.1)) result (name_at table.now.entries index bytes.now) }
    ensures within { IfOk result (λ x. x.1 ≤ length bytes.now) }
{
    if index == 0 {
        return read_string(alloc, bytes);
    }
    let Some((name, _)) = entry_of(table, index) else {
        return Err(BlockFault::BadBlock);
    };
    Ok((Text::InPlace(name), 0))
}

/// A literal field (RFC 7541, section 6.2).
#[tactic(auto, unfolding(crate::specs::Reading::literal_at))]
fn read_literal<'a>(
    alloc: Global,
    table: &'a DynamicTable,
    bytes: &'a [u8],
    prefix: u32,
) -> Result<(FieldText<'a>, usize), BlockFault>
    requires some { 1 ≤ prefix }
    requires most { prefix ≤ 8 }
    ensures reads { Gives (λ x. (field_in x.0, x.1)) result (literal_at table.now.entries prefix bytes.now) }
    ensures within { IfOk result (λ x. (1 ≤ x.1) × (x.1 ≤ length bytes.now)) }
{
    let (index, start) = read_number(bytes, prefix)?;
    let (name, name_len) = read_name(alloc, table, index, &bytes[start..])?;
    let (value, value_len) = read_string(alloc, &bytes[start + name_len..])?;
    Ok((FieldText { name, value }, start + name_len + value_len))
}

/// Reads the field at the head of the bytes into the list, and gives the number of its bytes.
#[tactic(auto, unfolding(crate::specs::Reading::field_at))]
pub fn read_field(
    alloc: Global,
    table: &mut DynamicTable,
    list: &mut Listed,
    bytes: &[u8],
) -> Result<usize, BlockFault>
    requires { 0 < length bytes.now }
    ensures { ReadsField result (field_at table.old bytes.now) table.new list.old list.new (length bytes.now) }
{
    let first = bytes[0];
    if first >= 128 {
        let (field, used) = read_indexed(table, bytes)?;
        list.push(alloc, field)?;
        return Ok(used);
    }
    if first >= 64 {
        let (field, used) = read_literal(alloc, table, bytes, 6)?;
        list.push_copy(alloc, &field)?;
        let field = field.into_field(alloc)?;
        table.add(field)?;
        return Ok(used);
    }
    if first >= 32 {
        return Err(BlockFault::BadBlock);
    }
    let (field, used) = read_literal(alloc, table, bytes, 4)?;
    list.push(alloc, field)?;
    Ok(used)
}

/// Reads the size update at the head of the bytes, and gives the number of its bytes.
#[tactic(auto, unfolding(crate::specs::Reading::update_at))]
pub fn read_update(table: &mut DynamicTable, bytes: &[u8]) -> Result<usize, BlockFault>
    ensures reads { Gives (λ used. (table.new, used)) result (update_at table.old bytes.now) }
    ensures within { IfOk result (λ used. (1 ≤ used) × (used ≤ length bytes.now)) }
{
    let (max, used) = read_number(bytes, 5)?;
    if max > MAX_TABLE_SIZE {
        return Err(BlockFault::BadBlock);
    }
    table.resize(max);
    Ok(used)
}
