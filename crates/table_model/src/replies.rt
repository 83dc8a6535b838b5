//! What a table answers.

use super::entries::Entry;
use super::reasons::Refusal;
use super::streams::StreamKind;
use sqlite_items::Items;

/// The stream was committed before: a `StorageError` code of the API, as the three below.
pub const STREAM_ALREADY_COMMITTED: u32 = 2;

/// No such stream is there.
pub const STREAM_NOT_FOUND: u32 = 3;

/// The stream isn't PENDING.
pub const INVALID_STREAM_TYPE: u32 = 4;

/// The stream isn't finalised.
pub const INVALID_STREAM_STATE: u32 = 5;

/// Why one stream of a commit can't be committed.
#[derive(Clone, Copy, Debug, PartialEq, Eq)]
pub struct StreamError {
    /// The stream's place in the commit, from 0.
    pub place: u32,
    /// [`STREAM_NOT_FOUND`], [`INVALID_STREAM_TYPE`], [`STREAM_ALREADY_COMMITTED`] or
    /// [`INVALID_STREAM_STATE`]: the first of these that holds.
    pub code: u32,
}

/// Stream errors, which contracts see as their list.
pub type StreamErrors = Items<StreamError>;

/// The reply to a command.
#[derive(Drop)]
pub enum Reply {
    /// The stream with this number was created at this moment.
    Created {
        stream: u32,
        moment: i64,
    },
    /// The rows were appended at this offset; none is told of the default stream.
    Appended {
        offset: Option<u64>,
    },
    /// The rows up to this offset are visible, the row there included.
    Flushed {
        offset: u64,
    },
    /// The stream is finalised with this many rows.
    Finalised {
        rows: u64,
    },
    /// The streams were committed at this moment.
    Committed {
        moment: i64,
    },
    /// No stream was committed.
    NotCommitted {
        errors: StreamErrors,
    },
    /// A stream's type and times, where it has them.
    Stream {
        kind: StreamKind,
        created: Option<i64>,
        committed: Option<i64>,
    },
    /// The read session with this number is there, with this many read streams. It can be read until it expires, at this
    /// moment.
    Session {
        session: u32,
        roots: u32,
        expires: i64,
    },
    /// The read streams into which one was split.
    Children {
        left: u32,
        right: u32,
    },
    /// The read stream has too few rows for a split.
    NoSplit,
    /// Nothing was done.
    Refused(Refusal),
}

/// What a command is answered at a history.
#[derive(Drop)]
pub enum Answer {
    /// The entry is added, and this is the reply.
    Accept(Entry, Reply),
    /// This is the reply, and no entry is added.
    Same(Reply),
    /// Nothing is done.
    Refuse(Refusal),
}
