//! The messages of a gRPC body, one way and the other.
//!
//! After "gRPC over HTTP/2", section "Length-Prefixed-Message": a body is its messages one after
//! another, each a compressed flag of one byte, a length of four bytes, most significant byte first,
//! and that many bytes. Compressed messages are not served, so the flag has to be 0.
//!
//! [`Deframer`] is fed the bytes of a body in any pieces and gives its messages as [`Part`]s;
//! [`frame_message`] writes one. [`one_reading`] is the law behind them: a body has one reading, and
//! what is read of it does not depend on how it was cut into pieces.
#![tactic(auto)]

mod deframer;
mod frame;
mod front;
mod limits;
mod part;
mod reading;
mod started;

pub use deframer::Deframer;
pub use frame::frame_message;
pub use limits::{MESSAGE_LIMIT, limit_in_figures};
pub use part::Part;
pub use reading::one_reading;
