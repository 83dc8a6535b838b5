//! The error codes of RFC 9113 section 7 that the server uses.

/// The answer is whole, and the client's part isn't wanted (section 8.1).
pub const NO_ERROR: u32 = 0;

pub const PROTOCOL_ERROR: u32 = 1;

pub const FLOW_CONTROL_ERROR: u32 = 3;

pub const STREAM_CLOSED: u32 = 5;

pub const REFUSED_STREAM: u32 = 7;

pub const COMPRESSION_ERROR: u32 = 9;

pub const ENHANCE_YOUR_CALM: u32 = 11;
