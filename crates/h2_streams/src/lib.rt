//! The streams that a client opens on an HTTP/2 connection: their states and windows (RFC 9113 sections 5.1 and 5.2).
//!
//! - [`Streams`] keeps the live streams in the order of opening, the last id that was begun, and the last 128 ids
//!   that the server reset. It takes no frame and writes none: each call is one step of a stream's life.
//! - [`StreamState`] is the state of an id.
//! - [`BeginRefusal`] and [`BodyRefusal`] say why HEADERS open no stream and why DATA isn't taken.
//!
//! `specs/Book` says what the streams are and which state an id has, `specs/Calls` and `specs/Shifts`
//! what each call does.
#![tactic(auto)]

mod refusals;
mod resets;
mod stream;
mod streams;

pub use h2_flow::Overflow;
pub use refusals::{BeginRefusal, BodyRefusal};
pub use stream::{Stream, StreamState};
pub use streams::Streams;
