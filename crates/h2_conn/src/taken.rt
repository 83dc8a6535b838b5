//! What one frame did.

use h2_frames::H2Fault;
use h2_record::Event;

/// What a frame did to an open connection.
#[derive(Drop)]
pub(crate) enum Taken {
    /// It tells nothing.
    Passes,
    /// It tells this.
    Tells(Event),
    /// It is a connection error.
    Breaks(H2Fault),
}
