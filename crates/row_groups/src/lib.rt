//! The visible rows of a table, kept once, in the groups in which they came.
//!
//! A group is a [`Slice`]: some rows of a list that never changes and stands behind an `Arc`, so that others may hold
//! the list too. A [`Spine`] is all groups so far: full blocks of [`BLOCK_GROUPS`] groups, each block behind an `Arc`,
//! and one last block. Each group and each block knows the position of its first row, so that [`Spine::find`] finds the
//! row at a position by two binary searches.
//!
//! [`Groups`] is the spine that grows, by a group or by several at once. [`Groups::spine`] gives out the rows so far: it
//! copies no row and no block. A push copies no row either. Where the last spine was given out and is still held, the
//! push builds a new spine, with a new last block and a new list of blocks; else it adds to the spine in its place. A
//! spine that was given out stays as it is, since what stands behind a shared `Arc` never changes.
//!
//! Contracts see a spine and its groups as a list of lists of rows. `specs/Places` says which row stands at a position,
//! and `places_are_rows` what follows from it; `specs/Kept` what a spine keeps.
#![tactic(auto)]

mod block;
mod fill;
mod groups;
mod law;
mod slice;
mod spine;

pub use block::BLOCK_GROUPS;
pub use groups::Groups;
pub use law::places_are_rows;
pub use slice::{Rows, Slice};
pub use spine::Spine;
