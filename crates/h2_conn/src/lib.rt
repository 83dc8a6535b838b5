//! One HTTP/2 connection of a server as a pure machine: a client's frames in and events out, the caller's answers in and
//! frames out (RFC 9113).
//!
//! - [`Conn`] is the connection. It takes the client's frames one by one, and keeps the streams, the windows, the
//!   header block that isn't whole, the table of HPACK, and what is due to be written, which it gives frame by frame, or
//!   appends to a buffer of the caller's as long as there is room.
//! - [`Event`] is what a frame tells: a request or a part of one, a reset, or a connection error.
//!
//! The definitions of a record (the frames that came and went, newest first, with marks for what the caller gave) stand
//! in h2_record. Here `specs/Held` says what a connection holds, `specs/Waits` and `specs/Stands` that it is what the
//! record says, `specs/Taking` and `specs/Counting` the steps of a frame that comes, and `specs/Produces` and
//! `specs/Fills` what a call gives to be written. docs/HTTP2.md numbers the rules.
#![tactic(auto)]

mod bounds;
mod closing;
mod conn;
mod continuation;
mod control;
mod counts;
mod data;
mod dispatch;
mod early;
mod fill;
mod flood;
mod giving;
mod headers;
mod kept_credit;
mod may;
mod next;
mod parts;
mod passed;
mod payload;
mod ping;
mod produce;
mod rst_stream;
mod settings;
mod shift;
mod take;
mod taken;
mod trailing;
mod whole_block;
mod window_update;

pub use conn::Conn;
pub use h2_record::Event;
