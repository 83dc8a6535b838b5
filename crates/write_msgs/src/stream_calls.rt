ghost use Rattle.std.specs.Prelude.{◌≡◌, ◌<◌, ◌^◌, length, IfOk};
ghost use Rattle.write_msgs.specs.Faults.{ReadsAs};
ghost use Rattle.write_msgs.specs.Streams.{get_write_stream_request_of, finalize_write_stream_request_of, finalize_write_stream_response_of, flush_rows_request_of, flush_rows_response_of};
ghost use Rattle.write_msgs.specs.StreamsBytes.{get_write_stream_request_bytes, finalize_write_stream_request_bytes, finalize_write_stream_response_bytes, flush_rows_request_bytes, flush_rows_response_bytes};

use crate::faults::{MsgFault, both};
use crate::numbers::{FLUSH_OFFSET, FLUSHED_OFFSET, FLUSHED_STREAM, NAME, ROW_COUNT, VIEW};
use crate::reading::{read_int32, read_int64, read_text, read_wrapped};
use crate::writing::{put_int, put_int64_value, put_text};
use outside::{Blob, Memory, Text};
use proto_fields::{Out, fields};
use std::alloc::Global;

/// Asks what a write stream is.
#[derive(Drop)]
pub struct GetWriteStreamRequest {
    /// The name of the write stream.
    pub name: Text,
    /// How much is asked for: 2 is FULL, any other number is BASIC.
    pub view: i32,
}

impl GetWriteStreamRequest {
    /// Reads a message of fewer than 2^32 bytes.
    ///
    /// It is refused where it is no message of Protocol Buffers, and where a text of it isn't UTF-8.
    #[tactic(auto, unfolding(crate::specs::Streams::get_write_stream_request_of))]
    pub fn decode(alloc: Global, bytes: &[u8]) -> Result<GetWriteStreamRequest, MsgFault>
        requires { length bytes.now < 2 ^ 32 }
        ensures { ReadsAs result (get_write_stream_request_of bytes.now) }
    {
        let found = fields(alloc, bytes)?;
        let name = read_text(alloc, bytes, found.as_slice(), NAME)?;
        Ok(GetWriteStreamRequest {
            name,
            view: read_int32(found.as_slice(), VIEW),
        })
    }

    /// The message as bytes.
    #[tactic(auto, using(crate::proofs::WritingLemmas::message_joins), unfolding(crate::specs::StreamsBytes::get_write_stream_request_bytes))]
    pub fn encode(&self, alloc: Global) -> Result<Blob, Memory>
        ensures { IfOk result (λ b. b ≡ get_write_stream_request_bytes self.now) }
    {
        let mut out = Out::new(alloc);
        put_text(alloc, &mut out, NAME, &self.name)?;
        put_int(alloc, &mut out, VIEW, self.view as i64)?;
        Ok(out.finish())
    }
}

/// Asks that no more rows be appended to a write stream.
#[derive(Drop)]
pub struct FinalizeWriteStreamRequest {
    /// The name of the write stream.
    pub name: Text,
}

impl FinalizeWriteStreamRequest {
    /// Reads a message of fewer than 2^32 bytes.
    ///
    /// It is refused where it is no message of Protocol Buffers, and where a text of it isn't UTF-8.
    #[tactic(auto, unfolding(crate::specs::Streams::finalize_write_stream_request_of))]
    pub fn decode(alloc: Global, bytes: &[u8]) -> Result<FinalizeWriteStreamRequest, MsgFault>
        requires { length bytes.now < 2 ^ 32 }
        ensures { ReadsAs result (finalize_write_stream_request_of bytes.now) }
    {
        let found = fields(alloc, bytes)?;
        let name = read_text(alloc, bytes, found.as_slice(), NAME)?;
        Ok(FinalizeWriteStreamRequest { name })
    }

    /// The message as bytes.
    #[tactic(auto, unfolding(crate::specs::StreamsBytes::finalize_write_stream_request_bytes))]
    pub fn encode(&self, alloc: Global) -> Result<Blob, Memory>
        ensures { IfOk result (λ b. b ≡ finalize_write_stream_request_bytes self.now) }
    {
        let mut out = Out::new(alloc);
        put_text(alloc, &mut out, NAME, &self.name)?;
        Ok(out.finish())
    }
}

/// The answer to a FinalizeWriteStreamRequest.
#[derive(Drop)]
pub struct FinalizeWriteStreamResponse {
    /// The number of rows of the write stream.
    pub row_count: i64,
}

impl FinalizeWriteStreamResponse {
    /// Reads a message of fewer than 2^32 bytes.
    ///
    /// It is refused where it is no message of Protocol Buffers.
    #[tactic(auto, unfolding(crate::specs::Streams::finalize_write_stream_response_of))]
    pub fn decode(alloc: Global, bytes: &[u8]) -> Result<FinalizeWriteStreamResponse, MsgFault>
        requires { length bytes.now < 2 ^ 32 }
        ensures { ReadsAs result (finalize_write_stream_response_of bytes.now) }
    {
        let found = fields(alloc, bytes)?;
        Ok(FinalizeWriteStreamResponse {
            row_count: read_int64(found.as_slice(), ROW_COUNT),
        })
    }

    /// The message as bytes.
    #[tactic(auto, unfolding(crate::specs::StreamsBytes::finalize_write_stream_response_bytes))]
    pub fn encode(&self, alloc: Global) -> Result<Blob, Memory>
        ensures { IfOk result (λ b. b ≡ finalize_write_stream_response_bytes self.now) }
    {
        let mut out = Out::new(alloc);
        put_int(alloc, &mut out, ROW_COUNT, self.row_count)?;
        Ok(out.finish())
    }
}

/// Asks that rows of a BUFFERED write stream be made visible.
#[derive(Drop)]
pub struct FlushRowsRequest {
    /// The name of the write stream.
    pub write_stream: Text,
    /// The offset of the last row to be made visible, where the message gives one.
    pub offset: Option<i64>,
}

impl FlushRowsRequest {
    /// Reads a message of fewer than 2^32 bytes.
    ///
    /// It is refused where it is no message of Protocol Buffers, and where a text of it isn't UTF-8.
    #[tactic(auto, unfolding(crate::specs::Streams::flush_rows_request_of))]
    pub fn decode(alloc: Global, bytes: &[u8]) -> Result<FlushRowsRequest, MsgFault>
        requires { length bytes.now < 2 ^ 32 }
        ensures { ReadsAs result (flush_rows_request_of bytes.now) }
    {
        let found = fields(alloc, bytes)?;
        let write_stream = read_text(alloc, bytes, found.as_slice(), FLUSHED_STREAM);
        let offset = read_wrapped(alloc, bytes, found.as_slice(), FLUSH_OFFSET);
        let (write_stream, offset) = both(write_stream, offset)?;
        Ok(FlushRowsRequest {
            write_stream,
            offset,
        })
    }

    /// The message as bytes.
    #[tactic(auto, using(crate::proofs::WritingLemmas::message_joins), unfolding(crate::specs::StreamsBytes::flush_rows_request_bytes))]
    pub fn encode(&self, alloc: Global) -> Result<Blob, Memory>
        ensures { IfOk result (λ b. b ≡ flush_rows_request_bytes self.now) }
    {
        let mut out = Out::new(alloc);
        put_text(alloc, &mut out, FLUSHED_STREAM, &self.write_stream)?;
        put_int64_value(alloc, &mut out, FLUSH_OFFSET, self.offset)?;
        Ok(out.finish())
    }
}

/// The answer to a FlushRowsRequest.
#[derive(Drop)]
pub struct FlushRowsResponse {
    /// The offset of the last visible row.
    pub offset: i64,
}

impl FlushRowsResponse {
    /// Reads a message of fewer than 2^32 bytes.
    ///
    /// It is refused where it is no message of Protocol Buffers.
    #[tactic(auto, unfolding(crate::specs::Streams::flush_rows_response_of))]
    pub fn decode(alloc: Global, bytes: &[u8]) -> Result<FlushRowsResponse, MsgFault>
        requires { length bytes.now < 2 ^ 32 }
        ensures { ReadsAs result (flush_rows_response_of bytes.now) }
    {
        let found = fields(alloc, bytes)?;
        Ok(FlushRowsResponse {
            offset: read_int64(found.as_slice(), FLUSHED_OFFSET),
        })
    }

    /// The message as bytes.
    #[tactic(auto, unfolding(crate::specs::StreamsBytes::flush_rows_response_bytes))]
    pub fn encode(&self, alloc: Global) -> Result<Blob, Memory>
        ensures { IfOk result (λ b. b ≡ flush_rows_response_bytes self.now) }
    {
        let mut out = Out::new(alloc);
        put_int(alloc, &mut out, FLUSHED_OFFSET, self.offset)?;
        Ok(out.finish())
    }
}
