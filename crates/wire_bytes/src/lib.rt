//! Big-endian fields of a wire format, read from a slice and appended to a vector.
//!
//! - [`Cursor`] takes fields of one, three and four bytes, and runs of bytes, from the front of a slice.
//! - [`Short`] is its one refusal: fewer bytes remain than were asked for. Nothing is taken then.
//! - [`put_u16`], [`put_u24`] and [`put_u32`] append a field of two, three or four bytes.
//! - [`numbers_read_back`] is the law that ties the two: a field that was written reads as its number.
//!
//! Numbers are in network byte order, the highest byte first (RFC 9113 section 2.2).
#![tactic(auto)]

mod cursor;
mod laws;
mod put;

pub use cursor::{Cursor, Short};
pub use laws::numbers_read_back;
pub use put::{put_u16, put_u24, put_u32};
