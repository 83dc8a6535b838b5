//! The open tables of a server, and the passes of one caller to them.
//!
//! [`Tables::start`] opens 1 to 8 tables, each with an empty history, and gives one pass to each. A request finds its
//! table by name and acts on it by [`Tables::act`], which takes a turn with the table's pass. [`Tables::look`] takes one
//! for a look at the table's history.
//!
//! What a request asks is a plan, of `specs/Plans`: an answer that needs no history, or what the table at a place
//! answers at a history. `Gets` and `Loses` say which answer it gets there, what its passes have then seen, and what
//! stands where the answer is lost for want of memory. [`Tables::act`] and [`Tables::has_stream`] are stated by them,
//! whatever their reply is told as: the type `A` is that of the plan's answer.
#![tactic(auto)]

mod acts;
mod passes;
mod tables;

pub use passes::Passes;
pub use tables::{MAX_TABLES, Tables};
