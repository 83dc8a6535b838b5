//! What the frames of a connection ask, and how the answers are spelled: gRPC over HTTP/2, Requests and Responses.
//!
//! A request's header fields open a [`Call`] or are refused. The bytes of its DATA, and its end, ask one thing after
//! another, each an [`Ask`]: every message of an AppendRows call as soon as it is whole, the one message of every other
//! call once the client has ended it, and the end of a call that asks nothing of a table, an [`Over`]. Each is answered
//! by one [`Answer`].
//!
//! The definitions speak of a whole connection: `specs/Decided` plays the frames of its record with the answers, and
//! says what is decided and what the record is with the answers in it; `specs/Spelled` says what the answers on a stream
//! are, octet by octet.
#![tactic(auto)]

mod answers;
mod asks;
mod body;
mod call;
mod codings;
mod ends;
mod kinds;
mod laws;
mod messages;

pub use answers::{Answer, HttpStatus};
pub use asks::{Ask, Over};
pub use call::Call;
pub use ends::{lost, over_of};
pub use laws::decided_laws;
