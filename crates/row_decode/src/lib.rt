//! Rows of a table, read from the messages that a writer sends.
//!
//! [`decode_row`] reads one message of Protocol Buffers by a [`Binding`](row_descriptor::Binding): for each column
//! the last value of its field counts, and a column without a value is NULL or, where it is REQUIRED, refused.
//! [`decode_rows`] reads all rows of a request, or names the first rows that are refused.
//!
//! The definitions stand in `specs/`: `Number` says which number a varint holds by its field's type, `Cell` what a
//! column's cell is, `Row` what a row is, and `Rows` which rows have a fault.
#![tactic(auto)]

mod cells;
mod faults;
mod numbers;
mod rows;

pub use faults::{MAX_FAULTS, RowFault, RowFaults, RowWhy, RowsFault};
pub use rows::{decode_row, decode_rows};
