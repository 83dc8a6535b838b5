//! The plain definition of a table, and the stores that meet it.
//!
//! A history is the list of the accepted commands, its [`Entry`]s. What a [`Command`] is answered is a
//! function of the history: its refusals are a list of tests, each with its [`Why`], and the first
//! that holds is the answer. [`answer_to`] is that function, over the [`Facts`] of a history and a
//! look-up of its write streams ([`Streams`]) and read sessions ([`Sessions`]), so that every table has the one answer.
//!
//! [`Plain`] is the table that keeps its history alone and walks it for each answer. [`Opaque`] is the
//! store of rows whose columns nobody knows: the appends of one stream, kept by offset.
//!
//! The definitions stand in `specs/`: `Streams`, `History`, `Content`, `Facts`, `Visible` and `Sessions` say what
//! a history says; `Look`, `Rules`, `Offsets`, `Checks` and `Answer` what a command is answered; `Legal` which
//! histories there are, and `Fits` what they keep; `Table` what a step does; and `Laws` what follows. The laws
//! are the contracts of functions that do nothing, as [`visible_rows_only_grow`].
#![tactic(auto)]

mod answers;
mod checks;
mod commands;
mod commits;
mod entries;
mod facts;
mod laws;
mod limits;
mod offsets;
mod opaque_rows;
mod plain;
mod reasons;
mod replies;
mod session_walks;
mod sessions;
mod streams;
mod visible_walks;
mod walks;

pub use answers::answer_to;
pub use checks::{
    FinalMove, FlushMove, append_check, finalise_check, flush_check, get_check, is_expired,
    read_check, stream_code,
};
pub use commands::{Command, Rows};
pub use commits::{CommitFault, commit_check};
pub use entries::{Change, Entry};
pub use facts::{Facts, Sessions, Streams};
pub use laws::{
    all_fits, appends_stand_at_the_end, entries_are_made, legal_is_within, node_rows_stay,
    sessions_are_trees, sessions_join, sessions_stay, sources_are_rows, sources_stand_once,
    steps_keep_legal, visible_rows_only_grow,
};
pub use limits::{
    COLUMN_OVERHEAD, LATEST_READING, MAX_ENTRIES, MAX_SESSIONS, MAX_STREAMS, MAX_WEIGHT,
    ROW_OVERHEAD, SESSION_LIFETIME,
};
pub use opaque_rows::{AppendFault, Opaque, OpaqueEntry};
pub use plain::Plain;
pub use reasons::{Refusal, Why};
pub use replies::{
    Answer, INVALID_STREAM_STATE, INVALID_STREAM_TYPE, Reply, STREAM_ALREADY_COMMITTED,
    STREAM_NOT_FOUND, StreamError, StreamErrors,
};
pub use sessions::ReadNode;
pub use streams::{Refs, StreamKind, StreamRef, StreamState};
pub use walks::size_added;
