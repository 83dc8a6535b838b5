//! What a frame tells the caller.

use hpack_blocks::FieldList;
use outside::Blob;

/// What the client's frame tells of a stream, or that the connection is over.
#[derive(Drop)]
pub enum Event {
    /// The header block of a request is whole, and the request isn't malformed (RFC 9113 section 8.1.1).
    Opened {
        stream: u32,
        fields: FieldList,
        /// The client has ended the stream with it.
        ended: bool,
    },
    /// The header block of a request is whole, and the size of its list is above 16,384.
    TooLarge {
        stream: u32,
    },
    /// DATA was taken on a stream that the client hadn't ended.
    Body {
        stream: u32,
        /// The data, without the padding.
        bytes: Blob,
        /// The client has ended the stream with it.
        ended: bool,
    },
    /// The client has ended a stream by trailers.
    Ended {
        stream: u32,
    },
    /// A stream that was told as opened or too large lives no more: the client has reset it, or the server does.
    /// What waited to be written on it is dropped.
    Reset {
        stream: u32,
        /// The error code of RFC 9113 section 7.
        code: u32,
    },
    /// The frame is a connection error, and the connection takes no further one.
    Fault {
        /// The error code of RFC 9113 section 7.
        code: u32,
        /// The rule that is broken, as docs/HTTP2.md numbers them.
        rule: u8,
    },
}
