//! The bytes of a client: a whole connection of HTTP/2 made from a list of calls, for whoever plays the client.
//!
//! [`client_bytes`] spells the preface, SETTINGS without a setting, and then call after call ([`ClientCall`]): HEADERS
//! that ask for its method, its messages in DATA, and END_STREAM (RFC 9113 sections 3.4, 4 and 8.1; gRPC over HTTP/2,
//! Requests). [`may_send`] tells whether these calls may be sent on one connection.
//!
//! `specs/Frames` is the list of the frames, and `specs/Given` says that they are the calls: how they are read, that they
//! break no rule of a connection, whatever the server writes meanwhile, and what each of them tells the server.
#![tactic(auto)]

mod calls;
mod fields;
mod writing;

pub use calls::{ClientCall, may_send};
pub use writing::client_bytes;
