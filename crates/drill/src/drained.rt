//! What a drain gives.

use sqlite_items::Items;
use table_model::{Reply, Rows};

/// A session that was read to its end.
#[derive(Drop)]
pub struct Drained {
    /// The nodes through which it was read, in their order.
    pub nodes: Items<u32>,
    /// Its rows, each with the session's columns alone.
    pub rows: Rows,
}

/// Why a session couldn't be read to its end.
#[derive(Drop)]
pub enum DrainFault {
    /// Want of memory.
    Memory,
    /// The table's history has no such session.
    NoSession,
    /// The session has expired: the moment of the table's history is `moment`, and the session could be read until
    /// `expires`, both in microseconds since 1970-01-01.
    Expired { moment: i64, expires: i64 },
    /// A split got this reply: the session has expired, has too many nodes, or the history is full.
    Refused { reply: Reply },
}
