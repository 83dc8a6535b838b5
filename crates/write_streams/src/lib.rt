//! The write streams of a table, and what the commands on them change: appends, flushes, finalisations and the
//! commit of several streams at once, as in the BigQuery Storage Write API.
//!
//! A [`StreamBook`] keeps one state for each stream and no history, so each call takes the same time however long
//! the history is. Its `check_` calls answer what a command is answered by the history that the book stands for; the
//! calls that change it leave it standing for that history with one entry more.
//!
//! `specs/Book` says how a stream is found in a book and what a change of it is, `specs/Stands` when a book stands
//! for a history.
#![tactic(auto)]

mod book;

pub use book::{StreamBook, StreamFacts, reads_keep_books};
pub use table_model::{FinalMove, FlushMove};
