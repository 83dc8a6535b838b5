//! The calls of one connection, frame by frame: each frame is taken, what it decides is answered, and the answers are given
//! to the connection (RFC 9113, gRPC over HTTP/2).
//!
//! [`heed`] takes one frame. A request opens a call or is refused; the bytes of a call's body ask one thing after another;
//! each is answered over the tables by its plan (call_plans), by one reading of the clock, between the two moments of its
//! [`Gated`] gate; and the answer's parts are given to the connection: HEADERS once, the framed messages, the trailers.
//! [`Calls`] are the calls that go on behind it, by stream.
//!
//! [`Dealing`] is the connection with the bodies of ReadRows calls, whose parts are given as its windows open.
//!
//! `specs/Heard` is the contract: a connection and its calls that stand for some frames and answers (`IsAt`) stand, behind
//! [`heed`], for one frame and its answers more, or are told why not ([`Heard`]). `specs/Answering` and `specs/Giving` say
//! what holds between two answers and between two parts of one.
#![tactic(auto)]

mod answering;
mod asked;
mod asking;
mod calls;
mod dealing;
mod gated;
mod giving;
mod heard;
mod hearing;
mod heeding;
mod polling;
mod service;

pub use calls::Calls;
pub use dealing::Dealing;
pub use gated::Gated;
pub use heard::Heard;
pub use heeding::heed;
