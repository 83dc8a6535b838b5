//! The limits of what one filling of a buffer may leave unwritten.

/// The bytes of a buffer that frames are written into before it is sent.
pub const WRITE_ROOM: usize = 65_536;

/// Where at least this many bytes of room are left and no frame that is due fits them, nothing is left to write, but
/// for what windows hold up. Each control frame and reset has at most 21 bytes.
pub const LEAST_ROOM: usize = 4_096;

/// The longest block of fields of an answer, in bytes: a frame's header and a table size update stand before it.
pub const LONGEST_BLOCK: usize = 4_086;

/// Where less than [`LEAST_ROOM`] is left of a buffer, at least this many bytes of it are filled.
pub const MOST_BEHIND: usize = 61_440;
