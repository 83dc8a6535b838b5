//! The body of a ReadRows call: its responses, polled as room for them comes.
//!
//! A [`RowsBody`] is a `Stream` of the crate `futures`. Its caller tells how much room there is; a poll with no room is
//! pending, and each other poll gives the next response of `row_responses`, or the end. Between two polls it holds its lease
//! and its place there, and no row, no response and no buffer. It takes no turn at a table and waits for nobody. Rows are
//! written straight from where the lease keeps them.
//!
//! A [`Hand`] makes the contexts in which bodies are polled by one who goes round by itself.
//!
//! `specs/Rows` says what a body is to give, and what a poll takes of it; [`polls_go_in_order`] says what any number of polls
//! give.
#![tactic(auto)]

mod body;
mod hand;
mod law;

pub use body::{RowsBody, RowsEnd};
pub use hand::Hand;
pub use law::polls_go_in_order;
