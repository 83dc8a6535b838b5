//! The resource names of BigQuery's Storage API, both ways: a text to the parts that it names, and parts to their text.
//!
//! A name is words and parts in turn, with slashes between them. A part is 1 to 128 bytes of ASCII letters, digits,
//! `_`, `-`, `.` and `:`.
//!
//! | type | text |
//! |---|---|
//! | [`ProjectName`] | `projects/P` |
//! | [`TableName`] | `projects/P/datasets/D/tables/T` |
//! | [`WriteName`] | a table's name and `/streams/S`, or `/_default` for the default stream |
//! | [`ReadName`] | `projects/P/locations/L/sessions/S/streams/N` |
//!
//! Each has `parse`, whose contract says which parts the text has, or that it is no such name. The write streams that
//! a table can have are [`StreamId::Default`] and [`StreamId::Number`]; [`ReadName::place`] says which node of which
//! session a read stream can be. Any other id is well formed and names nothing. The functions of [`laws`] say that the
//! texts which are read are those of these forms, and that what is written reads back.
#![tactic(auto)]

mod faults;
pub mod laws;
mod numbers;
mod parts;
mod projects;
mod read_streams;
mod tables;
mod write_streams;

pub use faults::NameFault;
pub use parts::{MAX_NAME_BYTES, MAX_PART_BYTES};
pub use projects::ProjectName;
pub use read_streams::{LOCATION, ReadName, ReadPlace, read_text, session_text};
pub use tables::TableName;
pub use write_streams::{StreamId, WriteName, default_text, write_text};
