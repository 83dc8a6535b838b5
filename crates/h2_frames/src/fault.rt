//! Why a stream of frames is refused.

use thiserror::Error;

/// A connection error: the first byte or frame that breaks a rule of RFC 9113, and of its rules the least.
///
/// The rules are numbered from 1 to 6 here: the preface; a payload above 16,384 bytes; the stream of a frame;
/// the length of a payload; the length of its padding; a push.
#[derive(Clone, Copy, Debug, PartialEq, Eq, Error)]
#[error("HTTP/2 error code {code}: frame rule {rule} is broken")]
pub struct H2Fault {
    /// The error code of RFC 9113 section 7: 1 is PROTOCOL_ERROR, 6 is FRAME_SIZE_ERROR.
    pub code: u32,
    /// The rule that is broken, from 1 to 6.
    pub rule: u8,
}
