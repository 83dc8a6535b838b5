//! The control frames that the server owes.

/// A control frame that the server owes, in the order of RFC 9113 sections 6.5 to 6.9.
#[derive(Clone, Copy, Debug, PartialEq, Eq)]
pub enum Control {
    /// The server's own SETTINGS: at most 100 streams, and header lists of at most 16,384.
    Settings,
    /// SETTINGS with ACK.
    SettingsAck,
    /// PING with ACK and the octets of the client's.
    Pong { octets: [u8; 8] },
    /// GOAWAY with the last stream that was begun and the error code.
    Goaway { last: u32, code: u32 },
    /// WINDOW_UPDATE; stream 0 is the connection.
    Credit { stream: u32, add: u32 },
}
