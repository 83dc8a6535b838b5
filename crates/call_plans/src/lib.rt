//! What each thing decided on a connection asks of the tables, method by method (BigQueryRead and BigQueryWrite, package
//! google.cloud.bigquery.storage.v1).
//!
//! The crate is definitions. `specs/Plans` gives the plan of each `Ask` of conn_requests, over the tables' names and
//! columns and over what an AppendRows call has named: an answer that needs no history, one command of one table and how
//! its reply is told, or what is told of one table's history. Each method has a file of its own, with its refusals in their
//! order and its exact responses.
#![tactic(auto)]

mod laws;
mod sessions;

pub use laws::plan_laws;
pub use sessions::{AVRO, FIRST_SECOND, LAST_NANO, LAST_SECOND};
