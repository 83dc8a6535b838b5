ghost use Rattle.std.specs.Prelude.{◌≡◌, ◌<◌, ◌≤◌, [], length, MatchOption};
ghost use Rattle.table_model.specs.Opaque.{Appended, weight_of, place_refusal_of};

use super::limits::{MAX_ENTRIES, MAX_WEIGHT, ROW_OVERHEAD};
use super::offsets::offset_refusal;
use super::reasons::{Refusal, Why};
use outside::{Blob, Blobs};
use std::alloc::{AllocFailed, Global};
use std::marker::Model;
use thiserror::Error;

/// An accepted append: the offset of its first row, and its rows.
#[derive(Drop)]
pub struct OpaqueEntry {
    pub offset: u64,
    pub rows: Blobs,
}

/// Why an append gave no offset.
#[derive(Drop)]
pub enum AppendFault {
    /// Want of memory.
    Memory,
    /// The history refuses the append.
    Refused(Refusal),
}

impl<T: Drop> From<AllocFailed<T>> for AppendFault {
    ghost use Rattle.std.specs.Prelude.{◌≡◌};
    ghost use Rattle.table_model.specs.declared.opaque_rows.AppendFault.TheVariants.{Memory};

    ghost from_gives = { λ _ e. e ≡ Memory };

    fn from(_refused: AllocFailed<T>) -> AppendFault {
        AppendFault::Memory
    }
}

/// The store of one stream whose rows are bytes. Contracts see its history, the list of the accepted
/// appends.
#[derive(Drop)]
pub struct Opaque {
    entries: Vec<OpaqueEntry>,
    end: u64,
    weight: u64,
}

impl Model for Opaque {
    ghost use Rattle.std.specs.Prelude.{List};
    ghost use Rattle.table_model.specs.declared.opaque_rows.OpaqueEntry.{OpaqueEntry};
    ghost use Rattle.table_model.specs.OpaqueKept.{IsKept};

    ghost Value = { List OpaqueEntry };

    ghost view = { λ o. o.entries.items };

    ghost invariant = { λ o. IsKept o.entries.items o.end o.weight };
}

impl Opaque {
    /// A store without a row. It can't be refused.
    pub fn new(alloc: Global) -> Opaque
        ensures { result ≡ [] }
    {
        Opaque {
            entries: Vec::new(alloc),
            end: 0,
            weight: 0,
        }
    }

    /// Appends rows at an offset, or at the end where none is given, and gives the offset of the
    /// first row.
    ///
    /// Refused, in this order: `NoRows`, `NegativeOffset`, `AlreadyWritten` below the end, `PastEnd`
    /// above it, `FullRows` where the rows would pass [`MAX_WEIGHT`], `FullEntries` at
    /// [`MAX_ENTRIES`]. A refusal and want of memory leave the history as it was.
    pub fn append(
        &mut self,
        _alloc: Global,
        offset: Option<i64>,
        rows: Vec<Blob>,
    ) -> Result<u64, AppendFault>
        ensures { Appended self.old self.new offset rows.items result }
    {
        match place_refusal(self.end, offset, rows.as_slice()) {
            Some(why) => return Err(AppendFault::Refused(Refusal::of(why))),
            None => {}
        }
        let Some(weight) = weight_within(rows.as_slice(), MAX_WEIGHT - self.weight) else {
            return Err(AppendFault::Refused(Refusal::of(Why::FullRows)));
        };
        if self.entries.len() >= MAX_ENTRIES {
            return Err(AppendFault::Refused(Refusal::of(Why::FullEntries)));
        }
        let first = self.end;
        let count = rows.len() as u64;
        self.entries.push(OpaqueEntry {
            offset: first,
            rows: Blobs::from_vec(rows),
        })?;
        self.end = first + count;
        self.weight += weight;
        Ok(first)
    }
}

// The cause for which an append of these rows can't stand at this offset, in a stream with this end.
fn place_refusal(end: u64, offset: Option<i64>, rows: &[Blob]) -> Option<Why>
    ensures { result ≡ place_refusal_of end offset (length rows.now) }
{
    if rows.is_empty() {
        return Some(Why::NoRows);
    }
    offset_refusal(end, offset)
}

// The size of the rows, where it is at most `room`.
fn weight_within(rows: &[Blob], room: u64) -> Option<u64>
    ensures { MatchOption result (room < weight_of rows.now) (λ weight. (weight ≡ weight_of rows.now) × (weight ≤ room)) }
{
    let mut left = room;
    for row in rows {
        let len = row.len() as u64;
        if left < ROW_OVERHEAD || left - ROW_OVERHEAD < len {
            return None;
        }
        left -= ROW_OVERHEAD + len;
    }
    Some(room - left)
}
