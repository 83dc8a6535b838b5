//! The SPEC of a table, as it stands on the command line: its name and its columns.
//!
//! A SPEC is `NAME=COLUMN,COLUMN`, with 1 to 256 columns. NAME is a table's resource name,
//! `projects/P/datasets/D/tables/T`, as BigQuery's API has it. A column is `name:KIND` or `name:KIND:MODE`. The KIND
//! is one of INT64, BOOL, STRING, BYTES, DATE and TIMESTAMP, the MODE is NULLABLE, which is the default, or REQUIRED.
//! No blank stands in it, and words are in upper case. [`TableSpec::parse`] reads one.
#![tactic(auto)]

mod columns;
mod parts;
mod spec;

pub use resource_names::MAX_PART_BYTES;
pub use spec::{SpecFault, TableSpec};
