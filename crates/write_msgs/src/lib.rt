//! The messages of BigQuery's Storage Write API, read and written.
//!
//! Each message is a struct with the fields that are served, under their names in
//! `google.cloud.bigquery.storage.v1`. `decode` reads one from its bytes and `encode` writes it; for
//! both the standard is the Protocol Buffers encoding guide. Fields that are not listed, and fields of
//! another wire type than their own, are passed over. A message is written with its fields in rising
//! numbers and with shortest varints; a number 0, an empty text and an absent message are not
//! written.
//!
//! Why a message is refused is [`MsgFault`], which says the order in which faults count.
//!
//! The crates of other messages read theirs with [`read_text`], [`read_int32`], [`inner_message`] and
//! [`present`] for a message within the message, [`with_item`] and [`in_nth_field`] for a repeated
//! one, and [`both`], which tells the fault that counts; they write them with [`put_text`] and
//! [`put_int`].
#![tactic(auto)]

mod commit_parts;
mod commits;
mod faults;
mod laws;
mod nested;
mod numbers;
mod reading;
mod repeated;
mod request;
mod request_parts;
mod request_writing;
mod response;
mod response_parts;
mod response_reading;
mod stream_calls;
mod writing;

pub use commit_parts::{StorageError, StorageErrors, Texts, Timestamp};
pub use commits::{BatchCommitWriteStreamsRequest, BatchCommitWriteStreamsResponse};
pub use faults::{MsgFault, both};
pub use laws::{requests_read_back, responses_read_back};
pub use nested::{Inner, inner_message, present};
pub use reading::{read_int32, read_text};
pub use repeated::{in_nth_field, located, occurrence, with_item};
pub use request::AppendRowsRequest;
pub use request_parts::{ProtoData, ProtoRows, ProtoSchema};
pub use response::AppendRowsResponse;
pub use response_parts::{AppendResult, RowError, RowErrors, Status};
pub use stream_calls::{
    FinalizeWriteStreamRequest, FinalizeWriteStreamResponse, FlushRowsRequest, FlushRowsResponse,
    GetWriteStreamRequest,
};
pub use writing::{put_int, put_text};
