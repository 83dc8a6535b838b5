//! The record of one HTTP/2 connection of a server, and what it says (RFC 9113): the definitions that a connection and
//! whoever uses one are judged by, with the Rust types that they cite.
//!
//! - [`Event`] is what a frame tells: a request or a part of one, a reset, or a connection error.
//! - [`Control`] is a control frame that the server owes.
//! - [`OpenBlock`] is a header block whose end hasn't come, and [`OwedCredit`] the credit of the latest DATA.
//! - [`codes`] has the error codes that the server uses, and [`limits`] the numbers that it holds a client to.
//!
//! The record (`specs/Record`) is a list of the frames that came and went, newest first, with marks for what the caller
//! gave. `specs/Windows`, `Ids`, `Live` and `Blocks` say what it makes of windows, streams and header blocks;
//! `specs/Rules` and `Faults` have the connection errors, `specs/Refusals` and `Resets` the resets by the server,
//! `specs/Events` what a frame tells, `specs/Control` and `Credits` the control frames that are due, `specs/Texts` and
//! `Replies` what was given and written on each stream, and `specs/Due` which frame may be written next.
//! docs/HTTP2.md numbers the rules.
//!
//! [`answers_are_kept`] and [`quiet_where_none_fits`] are laws of records on which each frame that went was due.
#![tactic(auto)]

mod block;
pub mod codes;
mod control;
mod event;
mod laws;
pub mod limits;

pub use block::{OpenBlock, OwedCredit};
pub use control::Control;
pub use event::Event;
pub use laws::{answers_are_kept, quiet_where_none_fits};
