ghost use Rattle.std.specs.Prelude.{◌≡◌, ◌≤◌, ◌<◌, ◌+◌, ◌^◌, ◌++◌, length, map, sum_by, All, IfOk, OnOk, Ok};
ghost use Rattle.std.specs.Option.{option_map};
ghost use Rattle.proto_fields.specs.Message.{fields_of, message_of};
ghost use Rattle.proto_fields.specs.Spans.{IsWithin, part, records_in, payload_size};
ghost use Rattle.write_msgs.specs.Faults.{ReadsAs};
ghost use Rattle.write_msgs.specs.Reading.{nested};
ghost use Rattle.write_msgs.specs.Repeated.{items_from, listed, repeated};
ghost use Rattle.write_msgs.specs.Writing.{message_field, repeated_field};
ghost use Rattle.write_msgs.specs.CommitParts.{timestamp_of, storage_error_of};
ghost use Rattle.write_msgs.specs.CommitPartsBytes.{timestamp_bytes, storage_error_bytes};
ghost use Rattle.write_msgs.specs.Commits.{text_item, batch_commit_write_streams_request_of, batch_commit_write_streams_response_of};
ghost use Rattle.write_msgs.specs.CommitsBytes.{batch_commit_write_streams_request_bytes, batch_commit_write_streams_response_bytes};

use crate::commit_parts::{StorageError, StorageErrors, Texts, Timestamp};
use crate::faults::{MsgFault, both};
use crate::nested::{inner_message, present};
use crate::numbers::{COMMIT_TIME, PARENT, STREAM_ERRORS, WRITE_STREAMS};
use crate::reading::{read_text, text_of};
use crate::repeated::{in_nth_field, occurrence, with_item};
use crate::writing::put_text;
use outside::{Blob, Memory, Span, Text};
use proto_fields::{Field, Out, all_bytes, fields};
use std::alloc::Global;

/// Asks that PENDING write streams be committed together.
#[derive(Drop)]
pub struct BatchCommitWriteStreamsRequest {
    /// The name of the table.
    pub parent: Text,
    /// The names of the write streams.
    pub write_streams: Texts,
}

/// The answer to a BatchCommitWriteStreamsRequest.
#[derive(Drop)]
pub struct BatchCommitWriteStreamsResponse {
    /// The moment of the commit, where there was one.
    pub commit_time: Option<Timestamp>,
    /// Why there was none.
    pub stream_errors: StorageErrors,
}

/// The texts at these places.
fn texts_at(alloc: Global, bytes: &[u8], spans: &[Span]) -> Result<Vec<Text>, MsgFault>
    requires small { length bytes.now < 2 ^ 32 }
    requires within { All (λ s. s.start + s.len ≤ length bytes.now) spans.now }
    ensures { ReadsAs (listed result) (items_from (text_item WRITE_STREAMS) 0 (map (part bytes.now) spans.now)) }
{
    let mut read = Ok(Vec::new(alloc));
    for (n, span) in spans.iter().enumerate() {
        read = with_item(
            read,
            text_of(alloc, occurrence(bytes, *span), WRITE_STREAMS),
            n,
        );
    }
    read
}

/// The names of the write streams.
fn read_names(alloc: Global, bytes: &[u8], found: &[Field]) -> Result<Texts, MsgFault>
    requires small { length bytes.now < 2 ^ 32 }
    requires message { fields_of bytes.now ≡ Ok (records_in bytes.now found.now) }
    requires within { All (IsWithin (length bytes.now)) found.now }
    ensures { ReadsAs result (repeated (text_item WRITE_STREAMS) WRITE_STREAMS bytes.now (records_in bytes.now found.now)) }
{
    let spans = all_bytes(alloc, found, WRITE_STREAMS)?;
    match texts_at(alloc, bytes, spans.as_slice()) {
        Ok(texts) => Ok(Texts::from_vec(texts)),
        Err(fault) => Err(in_nth_field(fault, bytes, WRITE_STREAMS)),
    }
}

/// The StorageErrors at these places.
fn errors_at(alloc: Global, bytes: &[u8], spans: &[Span]) -> Result<Vec<StorageError>, MsgFault>
    requires small { length bytes.now < 2 ^ 32 }
    requires within { All (λ s. s.start + s.len ≤ length bytes.now) spans.now }
    ensures { ReadsAs (listed result) (items_from storage_error_of 0 (map (part bytes.now) spans.now)) }
{
    let mut read = Ok(Vec::new(alloc));
    for (n, span) in spans.iter().enumerate() {
        read = with_item(
            read,
            StorageError::decode(alloc, occurrence(bytes, *span)),
            n,
        );
    }
    read
}

/// Why there was no commit.
fn read_errors(alloc: Global, bytes: &[u8], found: &[Field]) -> Result<StorageErrors, MsgFault>
    requires small { length bytes.now < 2 ^ 32 }
    requires message { fields_of bytes.now ≡ Ok (records_in bytes.now found.now) }
    requires within { All (IsWithin (length bytes.now)) found.now }
    ensures { ReadsAs result (repeated storage_error_of STREAM_ERRORS bytes.now (records_in bytes.now found.now)) }
{
    let spans = all_bytes(alloc, found, STREAM_ERRORS)?;
    match errors_at(alloc, bytes, spans.as_slice()) {
        Ok(errors) => Ok(StorageErrors::from_vec(errors)),
        Err(fault) => Err(in_nth_field(fault, bytes, STREAM_ERRORS)),
    }
}

/// The moment of the commit, a Timestamp.
fn read_time(alloc: Global, bytes: &[u8], found: &[Field]) -> Result<Option<Timestamp>, MsgFault>
    requires small { length bytes.now < 2 ^ 32 }
    requires message { fields_of bytes.now ≡ Ok (records_in bytes.now found.now) }
    requires within { All (IsWithin (length bytes.now)) found.now }
    requires size { sum_by payload_size found.now ≤ length bytes.now }
    ensures { ReadsAs result (nested timestamp_of COMMIT_TIME bytes.now (records_in bytes.now found.now)) }
{
    let Some(inner) = inner_message(alloc, bytes, found, COMMIT_TIME)? else {
        return Ok(None);
    };
    present(Timestamp::decode(alloc, inner.bytes()), bytes, COMMIT_TIME)
}

fn put_names(alloc: Global, out: &mut Out, names: &[Text]) -> Result<(), Memory>
    ensures { OnOk result (out.new ≡ out.old ++ message_of (repeated_field WRITE_STREAMS names.now)) }
{
    for name in names {
        out.bytes(alloc, WRITE_STREAMS, name.text().as_bytes())?;
    }
    Ok(())
}

fn put_errors(alloc: Global, out: &mut Out, errors: &[StorageError]) -> Result<(), Memory>
    ensures { OnOk result (out.new ≡ out.old ++ message_of (repeated_field STREAM_ERRORS (map storage_error_bytes errors.now))) }
{
    for error in errors {
        let message = error.encode(alloc)?;
        out.bytes(alloc, STREAM_ERRORS, message.bytes())?;
    }
    Ok(())
}

fn put_time(alloc: Global, out: &mut Out, moment: &Option<Timestamp>) -> Result<(), Memory>
    ensures { OnOk result (out.new ≡ out.old ++ message_of (message_field COMMIT_TIME (option_map timestamp_bytes moment.now))) }
{
    let Some(moment) = moment else {
        return Ok(());
    };
    let message = moment.encode(alloc)?;
    out.bytes(alloc, COMMIT_TIME, message.bytes())
}

impl BatchCommitWriteStreamsRequest {
    /// Reads a message of fewer than 2^32 bytes.
    ///
    /// It is refused where it is no message of Protocol Buffers, and where a text of it isn't UTF-8.
    #[tactic(auto, unfolding(crate::specs::Commits::batch_commit_write_streams_request_of))]
    pub fn decode(alloc: Global, bytes: &[u8]) -> Result<BatchCommitWriteStreamsRequest, MsgFault>
        requires { length bytes.now < 2 ^ 32 }
        ensures { ReadsAs result (batch_commit_write_streams_request_of bytes.now) }
    {
        let found = fields(alloc, bytes)?;
        let parent = read_text(alloc, bytes, found.as_slice(), PARENT);
        let names = read_names(alloc, bytes, found.as_slice());
        let (parent, write_streams) = both(parent, names)?;
        Ok(BatchCommitWriteStreamsRequest {
            parent,
            write_streams,
        })
    }

    /// The message as bytes.
    #[tactic(auto, using(crate::proofs::WritingLemmas::message_joins), unfolding(crate::specs::CommitsBytes::batch_commit_write_streams_request_bytes))]
    pub fn encode(&self, alloc: Global) -> Result<Blob, Memory>
        ensures { IfOk result (λ b. b ≡ batch_commit_write_streams_request_bytes self.now) }
    {
        let mut out = Out::new(alloc);
        put_text(alloc, &mut out, PARENT, &self.parent)?;
        put_names(alloc, &mut out, self.write_streams.texts())?;
        Ok(out.finish())
    }
}

impl BatchCommitWriteStreamsResponse {
    /// Reads a message of fewer than 2^32 bytes.
    ///
    /// It is refused where it, or a message within it, is no message of Protocol Buffers, and where
    /// one of its texts isn't UTF-8.
    #[tactic(auto, unfolding(crate::specs::Commits::batch_commit_write_streams_response_of))]
    pub fn decode(alloc: Global, bytes: &[u8]) -> Result<BatchCommitWriteStreamsResponse, MsgFault>
        requires { length bytes.now < 2 ^ 32 }
        ensures { ReadsAs result (batch_commit_write_streams_response_of bytes.now) }
    {
        let found = fields(alloc, bytes)?;
        let moment = read_time(alloc, bytes, found.as_slice());
        let errors = read_errors(alloc, bytes, found.as_slice());
        let (commit_time, stream_errors) = both(moment, errors)?;
        Ok(BatchCommitWriteStreamsResponse {
            commit_time,
            stream_errors,
        })
    }

    /// The message as bytes.
    #[tactic(auto, using(crate::proofs::WritingLemmas::message_joins), unfolding(crate::specs::CommitsBytes::batch_commit_write_streams_response_bytes))]
    pub fn encode(&self, alloc: Global) -> Result<Blob, Memory>
        ensures { IfOk result (λ b. b ≡ batch_commit_write_streams_response_bytes self.now) }
    {
        let mut out = Out::new(alloc);
        put_time(alloc, &mut out, &self.commit_time)?;
        put_errors(alloc, &mut out, self.stream_errors.errors())?;
        Ok(out.finish())
    }
}
