//! The header fields of gRPC calls over HTTP/2 (RFC 9113, section 8; gRPC over HTTP/2).
//!
//! - [`method_of`] gives the [`Method`] that a request's fields name, or the [`MetaFault`] for which
//!   they name none; [`trailer_is_good`] judges the trailers of a client.
//! - [`response_head`], [`trailers`] of a [`Status`], and [`http_only`] are what the server writes.
//!
//! The caller answers a list that is too large, and trailers that don't end their stream.
#![tactic(auto)]

mod answers;
mod fields;
pub mod laws;
mod methods;
mod requests;

pub use answers::{Status, http_only, response_head, trailers};
pub use fields::trailer_is_good;
pub use methods::Method;
pub use requests::{MetaFault, method_of};
