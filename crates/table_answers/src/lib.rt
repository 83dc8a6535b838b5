//! Rows, messages and tables: vectors of the standards, and each public call once on its happy path.
//!
//! The crate has tests alone, so that no crate below is proved twice.
#![tactic(auto)]

#[cfg(test)]
mod avro_rows_tests;
#[cfg(test)]
mod column_types_tests;
#[cfg(test)]
mod row_decode_tests;
#[cfg(test)]
mod row_descriptor_tests;
#[cfg(test)]
mod schema_msgs_tests;
#[cfg(test)]
mod table_spec_tests;
#[cfg(test)]
mod write_msgs_tests;
#[cfg(test)]
mod write_streams_tests;
#[cfg(test)]
mod written;
