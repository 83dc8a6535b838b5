//! A live stream, and the states of an id.

use h2_flow::Window;

/// A live stream: from the HEADERS that open it until both sides have ended it, or one has reset it.
#[derive(Clone, Copy, Debug, PartialEq, Eq)]
pub struct Stream {
    /// How many bytes of DATA may be sent on it.
    pub send: Window,
    /// How many bytes of DATA may come on it.
    pub receive: Window,
    /// The client has ended it: half-closed (remote).
    pub ended: bool,
    /// The server has ended it: half-closed (local).
    pub answered: bool,
}

/// The state of a stream's id (RFC 9113 section 5.1).
#[derive(Clone, Copy, Debug, PartialEq, Eq)]
pub enum StreamState {
    /// Neither it nor a greater id was begun, or it is even.
    Idle,
    /// Live, and the client hasn't ended it: open or half-closed (local).
    Live,
    /// Live, and the client has ended it: half-closed (remote).
    Ended,
    /// Begun or passed over, and not live.
    Closed {
        /// It is one of the last 128 ids that the server reset or refused.
        reset_by_server: bool,
    },
}
