//! The messages of BigQuery's Storage Write API that tell of a table's schema, read and written:
//! TableSchema, TableFieldSchema, WriteStream and CreateWriteStreamRequest.
//!
//! Each message is a struct with the fields that are served, under their names in
//! `google.cloud.bigquery.storage.v1`; `type` is `stream_type` in WriteStream and `column_type` in
//! TableFieldSchema. `decode` reads one from its bytes and `encode` writes it, as in
//! [`write_msgs`], which says why a message is refused.
//!
//! A field of a schema has fields within it, and these may have others: a message of ten million
//! bytes can nest two million of them. They are read at every depth, and a bad one refuses the whole.
//! So [`TableFieldSchemas`] keeps them in one vector, each in front of the fields within it, with its
//! depth, as in the outline of a book: [`NestedField`] is one line of it. Nothing here calls itself by
//! that depth: reading goes over a vector of the messages that wait to be read, and writing over the
//! lengths of all messages, which are found from the last field to the first. Contracts see a list of
//! fields, each with the list of the fields within it (`specs/Fields`), and how these are read is said
//! message by message (`specs/Schema`).
#![tactic(auto)]

mod field_lengths;
mod field_lists;
mod laws;
mod nested_fields;
mod numbers;
mod schema_reading;
mod schema_writing;
mod schemas;
mod walks;
mod write_streams;

pub use field_lists::TableFieldSchemas;
pub use laws::{
    create_requests_read_back, fields_nest, fields_read_back, outlines_are_fields,
    schemas_read_back, streams_read_back,
};
pub use nested_fields::NestedField;
pub use schemas::{TableFieldSchema, TableSchema};
pub use write_streams::{CreateWriteStreamRequest, WriteStream};
