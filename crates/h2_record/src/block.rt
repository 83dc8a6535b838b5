//! The header block that is being received, and the credit of the latest DATA.

use outside::Blob;

/// A header block whose END_HEADERS hasn't come (RFC 9113 section 4.3).
#[derive(Drop)]
pub struct OpenBlock {
    /// The stream of its HEADERS.
    pub stream: u32,
    /// END_STREAM of its HEADERS.
    pub ended: bool,
    /// Its HEADERS came on an id that was begun before: they are trailers, or on a closed stream.
    pub is_late: bool,
    /// The fragments so far.
    pub bytes: Blob,
    /// The CONTINUATION frames so far, at most 64.
    pub continuations: u32,
}

/// The credit of the latest frame, where that was DATA: whether it is given at once or kept is seen once the replies
/// to the frame are there.
#[derive(Clone, Copy, Debug, PartialEq, Eq)]
pub struct OwedCredit {
    pub stream: u32,
    /// In bytes, at least 1.
    pub bytes: u32,
}
