//! The read sessions of a table, and what is kept so that no question about them walks the history.
//!
//! A [`SessionBook`] keeps one [`Session`] for each read session, numbered from 1 in the order of their beginning: when it
//! was begun, its restriction, its columns, and the split tree of its rows' positions. A session and its nodes are found by
//! their numbers. [`Snapshots`] keep how many rows were visible from which moment on, so that a session can be begun
//! over the rows of an earlier moment; a binary search finds them.
//!
//! `specs/Book` says how a session is found and what a split of it changes, `specs/Stands` when a book stands for a
//! history, and `specs/Snapshots` which snapshots tell of a history. The calls that change a book or the snapshots leave them
//! standing for that history with one entry more.
#![tactic(auto)]

mod book;
mod session;
mod snapshots;

pub use book::SessionBook;
pub use session::Session;
pub use snapshots::{Snapshot, Snapshots};
