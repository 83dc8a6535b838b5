//! The body of one call: its messages are read from a source, each is answered, and the framed
//! replies are written to a sink.
//!
//! [`answer_body`] does this for whatever implements [`Answers`]. Its contract says what was written,
//! when each [`BodyEnd`] comes, and that a body of good messages ends with [`BodyEnd::Done`], unless
//! a fault outside or want of memory comes first. A message stands in the body as "gRPC over HTTP/2"
//! says, section "Length-Prefixed-Message". [`write_all`] writes any bytes to a sink.
#![tactic(auto)]

mod answering;
mod bodies;
mod ends;
mod limits;
mod pieces;
mod replies;

pub use answering::{Answer, Answers};
pub use bodies::answer_body;
pub use ends::BodyEnd;
pub use limits::{BODY_LIMIT, PIECE_LEN, limits_in_figures};
pub use replies::write_all;
