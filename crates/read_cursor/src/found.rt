//! What a cursor answers.

use column_types::Row;
use sqlite_items::Items;

/// The most rows of a chunk.
pub const MAX_CHUNK_ROWS: usize = 1024;

/// Where a row stands in a spine: its group, and its place there, each from 0.
#[derive(Clone, Copy, Debug, PartialEq, Eq)]
pub struct Place {
    pub group: u32,
    pub place: u32,
}

/// Where the next matching row stands.
#[derive(Clone, Copy, Debug, PartialEq, Eq)]
pub enum Found {
    /// At this place.
    Row(Place),
    /// All matching rows were given.
    End,
    /// The offset is beyond the number of matching rows, `matched`. None was given.
    PastEnd { matched: u64 },
}

/// The next matching rows, each with the chosen columns alone.
#[derive(Drop)]
pub enum Chunk {
    /// 1 to 1,024 rows, of which there are `count`.
    Rows { rows: Items<Row>, count: u32 },
    /// All matching rows were given.
    End,
    /// The offset is beyond the number of matching rows, `matched`. None was given.
    PastEnd { matched: u64 },
}
