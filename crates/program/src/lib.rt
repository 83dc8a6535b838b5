//! The commands of the program `bqstored`: BigQuery's bulk interface over typed tables in memory.
//!
//! `pipe --table SPEC` serves one whole connection over standard input and output: gRPC over HTTP/2, the services of
//! BigQuery's storage API over new tables. `serve` does so for the connections of a socket, several at once over one
//! set of tables, and then writes a line for each table. `body` reads the body of one AppendRows call from standard
//! input, keeps the rows by offset and writes the framed replies to standard output; with `--table SPEC` the rows are
//! decoded by the writer schema of the call and kept by the table's columns. `drill` runs a large input over one table,
//! by several threads at once, and writes five lines that tell what the table then holds. [`run`] is the program without
//! the process around it; its contract says what is read, written and answered, and which status comes when.
#![tactic(auto)]

mod bodies;
mod commands;
mod drills;
mod messages;
mod nested;
mod pipes;
mod replies;
mod requests;
mod serves;
mod tables;
mod typed_table;

pub use commands::{USAGE, WANT_OF_MEMORY, run};
