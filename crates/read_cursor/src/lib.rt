//! The rows of one read stream, in order, from an offset on.
//!
//! A [`Lease`] is what a reader was given when it began: a spine of groups of rows, which never changes, the positions
//! from `lo` up to `hi` of its node, the session's number of roots, its restriction and its columns. A [`Cursor`] goes
//! over these positions. A row counts where the restriction is yes, so not where it is unknown, and the offset counts
//! rows that count.
//!
//! A cursor keeps its group, its place in it and how many matching rows are still to skip, so a call goes on where the
//! last one stopped. While it skips it copies nothing. [`Cursor::next_chunk`] gives copies of the chosen columns of up to
//! [`MAX_CHUNK_ROWS`] rows; [`Cursor::next_place`] says where the next row stands, and [`Cursor::row`] lends it. Both mean
//! the same rows, and can be mixed. A cursor goes back to where it stood by a [`Mark`].
//!
//! `specs/Lease` says what a lease lets see, `specs/Reading` what a cursor gives; `intervals_keep_their_rows` says what a
//! cut of an interval, and rows behind it, leave of its rows.
#![tactic(auto)]

mod cursor;
mod found;
mod law;
mod lease;
mod walk;

pub use cursor::{Cursor, Mark};
pub use found::{Chunk, Found, MAX_CHUNK_ROWS, Place};
pub use law::intervals_keep_their_rows;
pub use lease::Lease;
