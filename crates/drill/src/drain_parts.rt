//! The nodes of a cut, while they are read.

ghost use Rattle.std.specs.Prelude.{◌≡◌, ◌<◌, length, map, take, get_or, IfOk};
ghost use Rattle.std.specs.List.{AllByRecursion, range_with_len};
ghost use Rattle.drill.specs.Parts.{Divides, ReadsOn, has_none, node_in};

use crate::drain_reads::{divide, read_some};
use column_types::Row;
use outside::Memory;
use read_cursor::Lease;
use sqlite_items::Items;
use std::alloc::Global;

/// A node of a cut, and the rows of it that were read: its first ones.
#[derive(Drop)]
pub(crate) struct Part {
    pub(crate) node: u32,
    pub(crate) rows: Vec<Row>,
}

// So many roots, of which nothing was read.
fn root_parts(alloc: Global, count: u32) -> Result<Vec<Part>, Memory>
    ensures nodes { IfOk result (λ parts. map node_in parts.items ≡ range_with_len 0 count) }
    ensures unread { IfOk result (λ parts. AllByRecursion has_none parts.items) }
{
    let mut parts = Vec::with_capacity(alloc, count as usize)?;
    for node in 0..count {
        let rows = Vec::new(alloc);
        parts.push(Part { node, rows })?;
    }
    Ok(parts)
}

/// The roots of the session of a lease, of which nothing was read.
pub(crate) fn roots_of(alloc: Global, lease: Lease) -> Result<Vec<Part>, Memory>
    ensures nodes { IfOk result (λ parts. map node_in parts.items ≡ range_with_len 0 lease.roots) }
    ensures unread { IfOk result (λ parts. AllByRecursion has_none parts.items) }
{
    root_parts(alloc, lease.roots())
}

/// The numbers of the nodes.
pub(crate) fn node_numbers(alloc: Global, parts: &[Part]) -> Result<Items<u32>, Memory>
    ensures { IfOk result (λ nodes. nodes ≡ map node_in parts.now) }
{
    let mut nodes = Vec::with_capacity(alloc, parts.len())?;
    for part in parts {
        nodes.push(part.node)?;
    }
    Ok(Items::from_vec(nodes))
}

/// Reads up to `count` rows more of the node at this place, whose lease this is.
pub(crate) fn read_part(
    alloc: Global,
    lease: Lease,
    parts: Vec<Part>,
    place: usize,
    count: u32,
) -> Result<Vec<Part>, Memory>
    requires { place < length parts.items }
    ensures { IfOk result (λ after. ReadsOn lease parts.items place after.items) }
{
    let mut parts = parts;
    read_some(alloc, lease, &mut parts[place].rows, count)?;
    Ok(parts)
}

/// Puts two nodes in the place of one. The rows that were read of it are theirs, of the left one, whose lease this is, the
/// first ones.
pub(crate) fn open_part(
    lease: Lease,
    parts: Vec<Part>,
    place: usize,
    left: u32,
    right: u32,
) -> Result<Vec<Part>, Memory>
    requires { place < length parts.items }
    ensures { IfOk result (λ after. Divides lease parts.items place left right after.items) }
{
    let mut parts = parts;
    let part = parts.remove(place);
    let (first, rest) = divide(lease, part.rows)?;
    parts.insert(
        place,
        Part {
            node: right,
            rows: rest,
        },
    )?;
    parts.insert(
        place,
        Part {
            node: left,
            rows: first,
        },
    )?;
    Ok(parts)
}
