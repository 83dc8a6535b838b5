//! Rows in Avro's binary encoding, as the Avro specification lays it down under "Binary Encoding", and the text of the
//! schema that they are read by.
//!
//! A table's columns are a record of the name `__root__`. A REQUIRED column is a field of its type, a NULLABLE one the
//! union of null and its type: `long` for INT64, `boolean` for BOOL, `string` for STRING, `bytes` for BYTES, `int` with
//! the logical type `date` for DATE, `long` with the logical type `timestamp-micros` for TIMESTAMP. [`schema_text`] is
//! that record's schema in JSON.
//!
//! [`encode_row`] writes a row's datum, which has no header and no mark at its end, and [`push_chosen`] the datum of some
//! of a row's columns behind others. [`decode_row`] reads the datum at the
//! front of some bytes, and accepts what the specification's writer can write and nothing else: numbers in their least
//! length, days and instants in their ranges, strings in UTF-8. No datum of a schema begins another
//! ([`one_reading`]), so data that stand one after another read back whole. docs/AVRO.md shows examples.
#![tactic(auto)]

mod cells;
mod law;
mod longs;
mod rows;
mod schemas;

pub use law::one_reading;
pub use rows::{DatumFault, decode_row, encode_row, push_chosen};
pub use schemas::schema_text;
