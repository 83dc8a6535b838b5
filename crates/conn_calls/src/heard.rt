//! What is heard of a frame.

use h2_frames::H2Fault;

/// What became of a frame.
#[derive(Clone, Copy, Debug, PartialEq, Eq)]
pub enum Heard {
    /// All that it decided is answered.
    Goes,
    /// It broke this rule of HTTP/2, which is a connection error (RFC 9113 section 5.4.1). It decided nothing.
    Breaks(H2Fault),
    /// Memory was wanting, and the connection can't go on. What was answered of it until then is answered.
    Memory,
}
