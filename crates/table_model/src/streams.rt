//! Write streams, and what a history says of one.

ghost use Rattle.std.specs.Prelude.{◌≡◌};
ghost use Rattle.table_model.specs.Streams.{is_one_stream, is_buffered as is_buffered_kind, is_default as is_default_of, is_pending as is_pending_kind};

use sqlite_items::Items;

/// The type of a write stream: when its rows are visible.
#[derive(Clone, Copy, Debug, PartialEq, Eq)]
pub enum StreamKind {
    /// COMMITTED: once appended.
    Committed,
    /// PENDING: once the stream was committed.
    Pending,
    /// BUFFERED: up to the flushed count.
    Buffered,
}

impl StreamKind {
    /// Whether it is BUFFERED.
    pub fn is_buffered(self) -> bool
        ensures { result ≡ is_buffered_kind self }
    {
        match self {
            StreamKind::Buffered => true,
            StreamKind::Committed | StreamKind::Pending => false,
        }
    }

    /// Whether it is PENDING.
    pub fn is_pending(self) -> bool
        ensures { result ≡ is_pending_kind self }
    {
        match self {
            StreamKind::Pending => true,
            StreamKind::Committed | StreamKind::Buffered => false,
        }
    }
}

/// A write stream of a table, as a command names it.
#[derive(Clone, Copy, Debug, PartialEq, Eq)]
pub enum StreamRef {
    /// The table's default stream, which is COMMITTED and always there.
    Default,
    /// The stream with this number. Streams are numbered from 1 in the order in which they were
    /// created.
    Number(u32),
    /// A name that no stream has.
    Other,
}

/// Names of streams, which contracts see as their list.
pub type Refs = Items<StreamRef>;

impl StreamRef {
    /// Whether both name one stream. A name that no stream has names none.
    pub fn is_same(self, other: StreamRef) -> bool
        ensures { result ≡ is_one_stream self other }
    {
        match (self, other) {
            (StreamRef::Default, StreamRef::Default) => true,
            (StreamRef::Number(one), StreamRef::Number(other)) => one == other,
            _ => false,
        }
    }

    /// Whether it is the default stream.
    pub fn is_default(self) -> bool
        ensures { result ≡ is_default_of self }
    {
        match self {
            StreamRef::Default => true,
            StreamRef::Number(_) | StreamRef::Other => false,
        }
    }
}

/// What a history says of a write stream that is there.
#[derive(Clone, Copy, Debug, PartialEq, Eq)]
pub struct StreamState {
    pub kind: StreamKind,
    /// The moment of its creation; none of the default stream.
    pub created: Option<i64>,
    /// The moment at which it was committed.
    pub committed: Option<i64>,
    /// The rows appended to it: the offset of the next one.
    pub rows: u64,
    /// How many of its first rows were flushed.
    pub flushed: u64,
    /// Whether it takes no more rows.
    pub finalised: bool,
}
