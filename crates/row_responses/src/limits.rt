//! How much a response holds.

/// The most rows of a response.
pub const MAX_RESPONSE_ROWS: u32 = 1_024;

/// The most bytes of the data of a response's rows, unless it is one row alone.
pub const MAX_RESPONSE_BYTES: usize = 1_048_576;
