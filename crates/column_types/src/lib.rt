//! The columns of a table, the rows that fit them, and the predicates that choose among rows.
//!
//! A [`Schema`] has 1 to 256 columns, whose names differ without ASCII case. A [`Row`] is a list of cells. It
//! fits a schema where it has one cell for each column, of the column's kind and within the kind's range, and
//! NULL only where the column is NULLABLE ([`fits`]). [`Fields`] are the columns that a reader chose, in the
//! schema's order, and [`project`] keeps their cells. A [`Pred`] is a condition on a row, and [`truth`] is its
//! truth by SQL's three values.
//!
//! Contracts see a `Schema` as its list of columns, a `Row` as its list of cells and `Fields` as a list of column
//! numbers from 0. The definitions stand in `specs/`: `Name`, `Schema`, `Fields`, `Row`, `Typed` and `Truth`.
#![tactic(auto)]

mod cell;
mod column;
mod evaluation;
mod fields;
mod predicate;
mod ranges;
mod row;
mod schema;
mod truths;

pub use cell::{Cell, Cells};
pub use column::{Column, Kind, MAX_NAME_BYTES, Mode};
pub use evaluation::truth;
pub use fields::{Fields, FieldsFault};
pub use predicate::{Op, Pred};
pub use ranges::{FIRST_DAY, FIRST_INSTANT, GREATEST_INT64, LAST_DAY, LAST_INSTANT, LEAST_INT64};
pub use row::{Row, fits, fits_column, is_literal, project};
pub use schema::{MAX_COLUMNS, Schema, SchemaFault};
pub use truths::Truth;
