//! The history of a table: the list of its accepted commands.

use super::commands::Rows;
use super::streams::{Refs, StreamKind, StreamRef};
use column_types::{Fields, Pred};

/// An accepted command.
#[derive(Drop)]
pub struct Entry {
    /// Who gave it.
    pub caller: u32,
    /// How many entries of this caller stand before it.
    pub number: u32,
    /// When it was accepted, in microseconds since 1970-01-01. Moments never fall.
    pub moment: i64,
    pub change: Change,
}

/// What an accepted command changes.
#[derive(Drop)]
pub enum Change {
    /// The stream with this number is there.
    Create {
        stream: u32,
        kind: StreamKind,
    },
    /// The rows stand at this offset of the stream.
    Append {
        stream: StreamRef,
        offset: u64,
        rows: Rows,
        bytes: u64,
    },
    /// The stream's first `upto` rows are visible.
    Flush {
        stream: StreamRef,
        upto: u64,
    },
    /// The stream takes no more rows.
    Finalise {
        stream: StreamRef,
    },
    /// All rows of these streams are visible, stream by stream.
    Commit {
        streams: Refs,
    },
    /// The read session with this number is there, over the first `at` visible rows, with this many roots.
    Session {
        session: u32,
        at: u64,
        pred: Pred,
        fields: Fields,
        roots: u32,
    },
    /// The node of the session is split into these two.
    Split {
        session: u32,
        node: u32,
        left: u32,
        right: u32,
    },
}
