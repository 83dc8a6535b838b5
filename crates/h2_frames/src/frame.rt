//! The frames of HTTP/2.

use crate::pairs::Pairs;
use outside::Blob;

/// A frame, without its padding, its priority fields and what is passed over: the reserved bits, unknown flags,
/// the payloads of unknown types and the debug data of GOAWAY.
///
/// The variants stand in the order of RFC 9113 section 6.
#[derive(Drop)]
pub enum Frame {
    /// DATA (section 6.1): a part of a message's body.
    Body {
        stream: u32,
        /// END_STREAM.
        end: bool,
        bytes: Blob,
        /// The payload's length with its padding, which flow control counts.
        counted: u32,
    },
    /// HEADERS (section 6.2): the first fragment of a header block.
    Headers {
        stream: u32,
        /// END_STREAM.
        end: bool,
        /// END_HEADERS: no CONTINUATION follows.
        whole: bool,
        block: Blob,
    },
    /// PRIORITY (section 6.3).
    Priority {
        stream: u32,
    },
    /// RST_STREAM (section 6.4), with its error code.
    Reset {
        stream: u32,
        code: u32,
    },
    /// SETTINGS (section 6.5).
    Settings {
        ack: bool,
        pairs: Pairs,
    },
    /// PUSH_PROMISE (section 6.6), which a client may not send.
    Push {
        stream: u32,
    },
    /// PING (section 6.7), with its opaque data.
    Ping {
        ack: bool,
        octets: [u8; 8],
    },
    /// GOAWAY (section 6.8), with the last stream and the error code.
    Goaway {
        last: u32,
        code: u32,
    },
    /// WINDOW_UPDATE (section 6.9), with the increment; stream 0 is the connection.
    Window {
        stream: u32,
        add: u32,
    },
    /// CONTINUATION (section 6.10): a further fragment of a header block.
    Continuation {
        stream: u32,
        /// END_HEADERS: no further CONTINUATION follows.
        whole: bool,
        block: Blob,
    },
    /// A type that RFC 9113 doesn't define, which is passed over (section 4.1).
    Unknown {
        kind: u8,
        stream: u32,
    },
}
