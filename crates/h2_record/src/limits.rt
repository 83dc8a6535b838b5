//! The numbers that the server holds a client to, and those of RFC 9113 that it uses.

/// What every window has at first, in bytes (RFC 9113 section 6.9.2), and so what the initial size is.
pub const FIRST_WINDOW: u32 = 65_535;

/// The greatest window, and the greatest increment of WINDOW_UPDATE, in bytes (sections 6.9 and 6.9.1).
pub const GREATEST_WINDOW: u32 = 0x7fff_ffff;

/// How many streams of a client may live at once (section 5.1.2).
pub const MOST_STREAMS: u32 = 100;

/// The greatest size of a header list (section 6.5.2), by the count of RFC 7541 section 4.1.
pub const MOST_LIST_SIZE: u32 = 16_384;

/// While so many replies wait on a stream, its credit is kept.
pub const MOST_WAITING: u32 = 64;

/// How many frames that ask for nothing may come in a row.
pub const MOST_FLOOD: u32 = 100_000;

/// The most bytes of a header block.
pub const MOST_BLOCK_BYTES: usize = 65_536;

/// The most CONTINUATION frames of a header block.
pub const MOST_CONTINUATIONS: u32 = 64;
