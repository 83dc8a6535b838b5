//! The messages of BigQuery's Storage Read API, read and written.
//!
//! Each message is a struct with the fields that are served, under their names in
//! `google.cloud.bigquery.storage.v1`. `decode` reads one from its bytes and `encode` writes it, as in
//! [`write_msgs`], whose `MsgFault` says why a message is refused, and the order in which faults
//! count. A singular field of bytes that is empty is not written, as a text is not.
//!
//! Two things are refused as unsupported: the data format ARROW (field 3 of ReadSession) and a sampling
//! percentage (field 5 of TableReadOptions). `preferred_min_stream_count` of CreateReadSessionRequest
//! and `fraction` of SplitReadStreamRequest are hints and are passed over, as are all fields that no
//! struct has.
#![tactic(auto)]

mod laws;
mod numbers;
mod options;
mod reading;
mod rows;
mod sessions;
mod streams;
mod writing;

pub use laws::{rows_read_back, sessions_read_back, splits_read_back};
pub use options::{TableModifiers, TableReadOptions};
pub use rows::{AvroRows, AvroSchema, ReadRowsRequest, ReadRowsResponse};
pub use sessions::{CreateReadSessionRequest, ReadSession};
pub use streams::{ReadStream, ReadStreams, SplitReadStreamRequest, SplitReadStreamResponse};
