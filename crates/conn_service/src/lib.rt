//! One connection, from its first byte to its end (RFC 9113, gRPC over HTTP/2): what is to hold of it, and laws of that.
//!
//! `specs/Serves` says what one connection does: what its bytes decide is answered, each item once, by one reading of the
//! clock, at points of the tables' histories (`specs/Served`), which are computed where no other pass acts
//! (`specs/Computed`); each frame that was written was due in its place; the connection is quiet wherever it waits
//! (`specs/Quiet`); and each [`Ending`] has its cause (`specs/Ends`). `specs/Going` is what a loop over the frames keeps.
//!
//! The laws compute nothing:
//!
//! - [`served_is_computed`]: where no other pass acts, answers and histories are computed.
//! - [`due_is_in_order`]: where each frame was due, what was written is a front of what was to be written.
//! - [`loop_keeps`]: the loop's invariant begins with a new connection, and ends in `Serves`.
//! - [`loop_goes_on`]: it goes on where frames are written, where the link waits and where a frame is read and heeded; a
//!   fault of the link, and a broken rule with its GOAWAY, end in `Serves` too.
#![tactic(auto)]

mod ending;
mod laws;

pub use ending::Ending;
pub use laws::{due_is_in_order, loop_goes_on, loop_keeps, served_is_computed};
