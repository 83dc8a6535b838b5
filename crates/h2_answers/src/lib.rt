//! What waits to be written on the streams of one HTTP/2 connection, as pure data (RFC 9113 sections 6.1, 6.2, 6.4,
//! 6.9.1 and 8.1).
//!
//! - [`Answers`] keeps, for each stream on which something waits, the parts of its answer in their order: the HEADERS
//!   that begin it, its replies, its trailers, and the resets of the stream. It finds the next frame that may be
//!   written, and appends it to a buffer that the caller has.
//! - [`Due`] names that frame by its stream and its [`Part`].
//! - [`Limits`] tells the send window of a stream, and whether a control frame of it waits.
//!
//! `specs/Waiting` says what waits and what a part adds, `specs/Replies` how replies are written byte by byte,
//! `specs/Due` which frame is due and how it is spelled, and `specs/Laws` what holds of the bytes of replies and of the
//! room that DATA want.
#![tactic(auto)]

mod answers;
mod laws;
mod limits;
mod part;
mod queue;
mod replies;
mod spelled;

pub use answers::Answers;
pub use laws::{data_goes_from_ten_bytes, replies_keep_their_bytes};
pub use limits::Limits;
pub use part::{Due, Part};
