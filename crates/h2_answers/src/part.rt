//! The parts of an answer.

use outside::Blob;

/// The frame of a stream that is written next.
#[derive(Clone, Copy, Debug, PartialEq, Eq)]
pub enum Part {
    /// The HEADERS that begin the answer (RFC 9113 section 6.2).
    Head {
        /// END_STREAM: they are all of the answer.
        end: bool,
    },
    /// DATA (section 6.1), which never end the stream.
    Body {
        /// How many bytes they carry, at least one.
        len: u32,
    },
    /// The trailers, HEADERS that end the stream (section 8.1).
    Tail,
    /// RST_STREAM (section 6.4).
    Reset {
        /// The error code.
        code: u32,
    },
}

/// A frame that may be written now.
#[derive(Clone, Copy, Debug, PartialEq, Eq)]
pub struct Due {
    /// The id of its stream.
    pub stream: u32,
    pub part: Part,
}

/// HEADERS that begin an answer.
#[derive(Drop)]
pub(crate) struct Head {
    /// Their block, as a later one of the connection.
    pub(crate) block: Blob,
    /// END_STREAM.
    pub(crate) end: bool,
}

/// A part of an answer that is given.
#[derive(Drop)]
pub(crate) enum Given {
    Head(Head),
    Reply(Blob),
    Tail(Blob),
    Reset(u32),
}
