//! One connection, served from its first byte to its end (RFC 9113, gRPC over HTTP/2).
//!
//! [`serve_connection`] does what `specs/Serves` of conn_service says. It is an endless loop over rounds. A round writes
//! what is due, unless all is written; reads once, no more bytes than the frame that isn't whole wants; and answers the
//! frame that they make whole (conn_calls). Where nothing is there to be read, the link waits, but not before all is
//! written. Behind a broken rule GOAWAY is written, and nothing is read any more.
//!
//! `specs/Settling` says what one filling of the buffer writes, `specs/Hearing` what one read gives, and `specs/Rounds`
//! what the loop keeps from one round to the next: the invariant `Going` of conn_service, and where the connection may
//! read or wait. `specs/Shown` puts together what a link and a clock tell. Each exit of a round is one law of conn_service.
#![tactic(auto)]

mod hearing;
mod leaving;
mod reading;
mod round;
mod sending;
mod serving;
mod settling;
mod state;

pub use serving::serve_connection;
