ghost use Rattle.std.specs.Prelude.{◌≡◌, ◌≤◌, ◌<◌, ◌^◌, ◌++◌, length, sum_by, All, IfOk, OnOk, Ok};
ghost use Rattle.std.specs.Option.{option_map};
ghost use Rattle.proto_fields.specs.Message.{fields_of, message_of};
ghost use Rattle.proto_fields.specs.Spans.{IsWithin, records_in, payload_size};
ghost use Rattle.write_msgs.specs.Faults.{ReadsAs};
ghost use Rattle.write_msgs.specs.Reading.{nested};
ghost use Rattle.write_msgs.specs.Writing.{message_field};
ghost use Rattle.read_msgs.specs.Streams.{read_stream_of, split_read_stream_request_of, split_read_stream_response_of};
ghost use Rattle.read_msgs.specs.StreamsBytes.{read_stream_bytes, split_read_stream_request_bytes, split_read_stream_response_bytes};

use crate::numbers::{PRIMARY_STREAM, REMAINDER_STREAM, SPLIT_NAME, STREAM_NAME};
use outside::{Blob, Memory, Text};
use proto_fields::{Field, Out, fields};
use std::alloc::Global;
use std::marker::Model;
use write_msgs::{MsgFault, both, inner_message, present, put_text, read_text};

/// A read stream of a session.
#[derive(Drop)]
pub struct ReadStream {
    pub name: Text,
}

impl ReadStream {
    /// Reads a message of fewer than 2^32 bytes.
    ///
    /// It is refused where it is no message of Protocol Buffers, and where its name isn't UTF-8.
    #[tactic(auto, unfolding(crate::specs::Streams::read_stream_of))]
    pub fn decode(alloc: Global, bytes: &[u8]) -> Result<ReadStream, MsgFault>
        requires { length bytes.now < 2 ^ 32 }
        ensures { ReadsAs result (read_stream_of bytes.now) }
    {
        let found = fields(alloc, bytes)?;
        let name = read_text(alloc, bytes, found.as_slice(), STREAM_NAME)?;
        Ok(ReadStream { name })
    }

    /// The message as bytes.
    #[tactic(auto, unfolding(crate::specs::StreamsBytes::read_stream_bytes))]
    pub fn encode(&self, alloc: Global) -> Result<Blob, Memory>
        ensures { IfOk result (λ b. b ≡ read_stream_bytes self.now) }
    {
        let mut out = Out::new(alloc);
        put_text(alloc, &mut out, STREAM_NAME, &self.name)?;
        Ok(out.finish())
    }
}

/// A list of read streams that a value owns. Contracts see the list.
#[derive(Drop)]
pub struct ReadStreams {
    streams: Vec<ReadStream>,
}

impl Model for ReadStreams {
    ghost use Rattle.std.specs.Prelude.{List};
    ghost use Rattle.read_msgs.specs.declared.streams.ReadStream.{ReadStream};

    ghost Value = { List ReadStream };

    ghost view = { λ r. r.streams.items };
}

impl ReadStreams {
    /// The list of a vector, without a copy.
    pub fn from_vec(streams: Vec<ReadStream>) -> ReadStreams
        ensures { result ≡ streams.items }
    {
        ReadStreams { streams }
    }

    /// The read streams.
    pub fn streams(&self) -> &[ReadStream]
        ensures { result.now ≡ self.now }
    {
        self.streams.as_slice()
    }

    /// The read streams as a vector, without a copy.
    pub fn into_vec(self) -> Vec<ReadStream>
        ensures { result.items ≡ self }
    {
        self.streams
    }
}

/// Asks that a read stream be split into two.
#[derive(Drop)]
pub struct SplitReadStreamRequest {
    /// The name of the read stream.
    pub name: Text,
}

impl SplitReadStreamRequest {
    /// Reads a message of fewer than 2^32 bytes.
    ///
    /// It is refused where it is no message of Protocol Buffers, and where a text of it isn't UTF-8.
    #[tactic(auto, unfolding(crate::specs::Streams::split_read_stream_request_of))]
    pub fn decode(alloc: Global, bytes: &[u8]) -> Result<SplitReadStreamRequest, MsgFault>
        requires { length bytes.now < 2 ^ 32 }
        ensures { ReadsAs result (split_read_stream_request_of bytes.now) }
    {
        let found = fields(alloc, bytes)?;
        let name = read_text(alloc, bytes, found.as_slice(), SPLIT_NAME)?;
        Ok(SplitReadStreamRequest { name })
    }

    /// The message as bytes.
    #[tactic(auto, unfolding(crate::specs::StreamsBytes::split_read_stream_request_bytes))]
    pub fn encode(&self, alloc: Global) -> Result<Blob, Memory>
        ensures { IfOk result (λ b. b ≡ split_read_stream_request_bytes self.now) }
    {
        let mut out = Out::new(alloc);
        put_text(alloc, &mut out, SPLIT_NAME, &self.name)?;
        Ok(out.finish())
    }
}

/// The answer to a SplitReadStreamRequest: both read streams, or none where there was no split.
#[derive(Drop)]
pub struct SplitReadStreamResponse {
    /// The front of the rows.
    pub primary_stream: Option<ReadStream>,
    /// The other rows.
    pub remainder_stream: Option<ReadStream>,
}

/// The ReadStream in the field of this number, where there is one.
fn read_half(
    alloc: Global,
    bytes: &[u8],
    found: &[Field],
    number: u32,
) -> Result<Option<ReadStream>, MsgFault>
    requires small { length bytes.now < 2 ^ 32 }
    requires message { fields_of bytes.now ≡ Ok (records_in bytes.now found.now) }
    requires within { All (IsWithin (length bytes.now)) found.now }
    requires size { sum_by payload_size found.now ≤ length bytes.now }
    ensures { ReadsAs result (nested read_stream_of number bytes.now (records_in bytes.now found.now)) }
{
    let Some(inner) = inner_message(alloc, bytes, found, number)? else {
        return Ok(None);
    };
    present(ReadStream::decode(alloc, inner.bytes()), bytes, number)
}

fn put_half(
    alloc: Global,
    out: &mut Out,
    number: u32,
    stream: &Option<ReadStream>,
) -> Result<(), Memory>
    requires low { 1 ≤ number }
    requires high { number ≤ 536870911 }
    ensures { OnOk result (out.new ≡ out.old ++ message_of (message_field number (option_map read_stream_bytes stream.now))) }
{
    let Some(stream) = stream else {
        return Ok(());
    };
    let message = stream.encode(alloc)?;
    out.bytes(alloc, number, message.bytes())
}

impl SplitReadStreamResponse {
    /// Reads a message of fewer than 2^32 bytes.
    ///
    /// It is refused where it, or a message within it, is no message of Protocol Buffers, and where
    /// one of its texts isn't UTF-8.
    #[tactic(auto, unfolding(crate::specs::Streams::split_read_stream_response_of))]
    pub fn decode(alloc: Global, bytes: &[u8]) -> Result<SplitReadStreamResponse, MsgFault>
        requires { length bytes.now < 2 ^ 32 }
        ensures { ReadsAs result (split_read_stream_response_of bytes.now) }
    {
        let found = fields(alloc, bytes)?;
        let primary = read_half(alloc, bytes, found.as_slice(), PRIMARY_STREAM);
        let remainder = read_half(alloc, bytes, found.as_slice(), REMAINDER_STREAM);
        let (primary_stream, remainder_stream) = both(primary, remainder)?;
        Ok(SplitReadStreamResponse {
            primary_stream,
            remainder_stream,
        })
    }

    /// The message as bytes.
    #[tactic(auto, using(crate::proofs::FieldLemmas::parts_join), unfolding(crate::specs::StreamsBytes::split_read_stream_response_bytes))]
    pub fn encode(&self, alloc: Global) -> Result<Blob, Memory>
        ensures { IfOk result (λ b. b ≡ split_read_stream_response_bytes self.now) }
    {
        let mut out = Out::new(alloc);
        put_half(alloc, &mut out, PRIMARY_STREAM, &self.primary_stream)?;
        put_half(alloc, &mut out, REMAINDER_STREAM, &self.remainder_stream)?;
        Ok(out.finish())
    }
}
