//! What a table holds at most.

/// The sum of the sizes of a table's rows, at most, in bytes. A row's size is [`ROW_OVERHEAD`],
/// [`COLUMN_OVERHEAD`] for each column, and the length of its serialised bytes.
pub const MAX_WEIGHT: u64 = 268_435_456;

/// What a row weighs beside its columns and its bytes.
pub const ROW_OVERHEAD: u64 = 32;

/// What each column adds to a row's weight. Opaque rows have no columns.
pub const COLUMN_OVERHEAD: u64 = 32;

/// The entries of a table, at most.
pub const MAX_ENTRIES: usize = 4_194_304;

/// The write streams of a table beside its default stream, at most.
pub const MAX_STREAMS: u32 = 10_000;

/// The latest reading of a clock, in microseconds since 1970-01-01: six hours later is still in the
/// year 9999.
pub const LATEST_READING: i64 = 253_402_279_199_999_999;

/// The read sessions of a table, at most.
pub const MAX_SESSIONS: u32 = 4_096;

/// How long a read session can be read, in microseconds: six hours.
pub const SESSION_LIFETIME: i64 = 21_600_000_000;
