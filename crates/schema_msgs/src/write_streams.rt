ghost use Rattle.std.specs.Prelude.{◌≡◌, ◌≤◌, ◌<◌, ◌^◌, ◌++◌, length, sum_by, All, IfOk, OnOk, Ok};
ghost use Rattle.std.specs.Option.{option_map};
ghost use Rattle.proto_fields.specs.Message.{fields_of, message_of};
ghost use Rattle.proto_fields.specs.Spans.{IsWithin, records_in, payload_size};
ghost use Rattle.write_msgs.specs.Faults.{ReadsAs};
ghost use Rattle.write_msgs.specs.Reading.{nested};
ghost use Rattle.write_msgs.specs.Writing.{message_field};
ghost use Rattle.write_msgs.specs.CommitParts.{timestamp_of};
ghost use Rattle.write_msgs.specs.CommitPartsBytes.{timestamp_bytes};
ghost use Rattle.schema_msgs.specs.Schema.{table_schema_of};
ghost use Rattle.schema_msgs.specs.SchemaBytes.{table_schema_bytes};
ghost use Rattle.schema_msgs.specs.Stream.{create_write_stream_request_of, name_and_schema_in, times_in, write_stream_of};
ghost use Rattle.schema_msgs.specs.StreamBytes.{create_write_stream_request_bytes, write_stream_bytes};

use crate::numbers::{
    COMMIT_TIME, CREATE_TIME, PARENT, STREAM_NAME, STREAM_TYPE, TABLE_SCHEMA, WRITE_STREAM,
};
use crate::schemas::TableSchema;
use outside::{Blob, Memory, Text};
use proto_fields::{Field, Out, fields};
use std::alloc::Global;
use write_msgs::{
    MsgFault, Timestamp, both, inner_message, present, put_int, put_text, read_int32, read_text,
};

/// A write stream.
#[derive(Drop)]
pub struct WriteStream {
    pub name: Text,
    /// The code of its type.
    pub stream_type: i32,
    /// The moment when it was made, where the message gives one.
    pub create_time: Option<Timestamp>,
    /// The moment when it was committed, where the message gives one.
    pub commit_time: Option<Timestamp>,
    /// The schema of its table, where the message gives one.
    pub table_schema: Option<TableSchema>,
}

/// Asks that a write stream be made.
#[derive(Drop)]
pub struct CreateWriteStreamRequest {
    /// The name of the table.
    pub parent: Text,
    /// What is asked for, where the message gives it.
    pub write_stream: Option<WriteStream>,
}

/// The Timestamp in the field of this number, where there is one.
fn read_time(
    alloc: Global,
    bytes: &[u8],
    found: &[Field],
    number: u32,
) -> Result<Option<Timestamp>, MsgFault>
    requires small { length bytes.now < 2 ^ 32 }
    requires message { fields_of bytes.now ≡ Ok (records_in bytes.now found.now) }
    requires within { All (IsWithin (length bytes.now)) found.now }
    requires size { sum_by payload_size found.now ≤ length bytes.now }
    ensures { ReadsAs result (nested timestamp_of number bytes.now (records_in bytes.now found.now)) }
{
    let Some(inner) = inner_message(alloc, bytes, found, number)? else {
        return Ok(None);
    };
    present(Timestamp::decode(alloc, inner.bytes()), bytes, number)
}

/// The schema of a write stream's table.
fn read_schema(
    alloc: Global,
    bytes: &[u8],
    found: &[Field],
) -> Result<Option<TableSchema>, MsgFault>
    requires small { length bytes.now < 2 ^ 32 }
    requires message { fields_of bytes.now ≡ Ok (records_in bytes.now found.now) }
    requires within { All (IsWithin (length bytes.now)) found.now }
    requires size { sum_by payload_size found.now ≤ length bytes.now }
    ensures { ReadsAs result (nested table_schema_of TABLE_SCHEMA bytes.now (records_in bytes.now found.now)) }
{
    let Some(inner) = inner_message(alloc, bytes, found, TABLE_SCHEMA)? else {
        return Ok(None);
    };
    present(
        TableSchema::decode(alloc, inner.bytes()),
        bytes,
        TABLE_SCHEMA,
    )
}

/// The write stream that is asked for.
fn read_stream(
    alloc: Global,
    bytes: &[u8],
    found: &[Field],
) -> Result<Option<WriteStream>, MsgFault>
    requires small { length bytes.now < 2 ^ 32 }
    requires message { fields_of bytes.now ≡ Ok (records_in bytes.now found.now) }
    requires within { All (IsWithin (length bytes.now)) found.now }
    requires size { sum_by payload_size found.now ≤ length bytes.now }
    ensures { ReadsAs result (nested write_stream_of WRITE_STREAM bytes.now (records_in bytes.now found.now)) }
{
    let Some(inner) = inner_message(alloc, bytes, found, WRITE_STREAM)? else {
        return Ok(None);
    };
    present(
        WriteStream::decode(alloc, inner.bytes()),
        bytes,
        WRITE_STREAM,
    )
}

/// The moments of a write stream.
fn read_times(
    alloc: Global,
    bytes: &[u8],
    found: &[Field],
) -> Result<(Option<Timestamp>, Option<Timestamp>), MsgFault>
    requires small { length bytes.now < 2 ^ 32 }
    requires message { fields_of bytes.now ≡ Ok (records_in bytes.now found.now) }
    requires within { All (IsWithin (length bytes.now)) found.now }
    requires size { sum_by payload_size found.now ≤ length bytes.now }
    ensures { ReadsAs result (times_in bytes.now (records_in bytes.now found.now)) }
{
    let created = read_time(alloc, bytes, found, CREATE_TIME);
    both(created, read_time(alloc, bytes, found, COMMIT_TIME))
}

/// The name of a write stream, and the schema of its table.
fn read_name_and_schema(
    alloc: Global,
    bytes: &[u8],
    found: &[Field],
) -> Result<(Text, Option<TableSchema>), MsgFault>
    requires small { length bytes.now < 2 ^ 32 }
    requires message { fields_of bytes.now ≡ Ok (records_in bytes.now found.now) }
    requires within { All (IsWithin (length bytes.now)) found.now }
    requires size { sum_by payload_size found.now ≤ length bytes.now }
    ensures { ReadsAs result (name_and_schema_in bytes.now (records_in bytes.now found.now)) }
{
    let name = read_text(alloc, bytes, found, STREAM_NAME);
    both(name, read_schema(alloc, bytes, found))
}

fn put_time(
    alloc: Global,
    out: &mut Out,
    number: u32,
    moment: &Option<Timestamp>,
) -> Result<(), Memory>
    requires low { 1 ≤ number }
    requires high { number ≤ 536870911 }
    ensures { OnOk result (out.new ≡ out.old ++ message_of (message_field number (option_map timestamp_bytes moment.now))) }
{
    let Some(moment) = moment else {
        return Ok(());
    };
    let message = moment.encode(alloc)?;
    out.bytes(alloc, number, message.bytes())
}

fn put_schema(alloc: Global, out: &mut Out, schema: &Option<TableSchema>) -> Result<(), Memory>
    ensures { OnOk result (out.new ≡ out.old ++ message_of (message_field TABLE_SCHEMA (option_map table_schema_bytes schema.now))) }
{
    let Some(schema) = schema else {
        return Ok(());
    };
    let message = schema.encode(alloc)?;
    out.bytes(alloc, TABLE_SCHEMA, message.bytes())
}

fn put_stream(alloc: Global, out: &mut Out, stream: &Option<WriteStream>) -> Result<(), Memory>
    ensures { OnOk result (out.new ≡ out.old ++ message_of (message_field WRITE_STREAM (option_map write_stream_bytes stream.now))) }
{
    let Some(stream) = stream else {
        return Ok(());
    };
    let message = stream.encode(alloc)?;
    out.bytes(alloc, WRITE_STREAM, message.bytes())
}

impl WriteStream {
    /// Reads a message of fewer than 2^32 bytes.
    ///
    /// It is refused where it, or a message at any depth within it, is no message of Protocol
    /// Buffers, and where one of its texts isn't UTF-8.
    #[tactic(auto, unfolding(crate::specs::Stream::write_stream_of))]
    pub fn decode(alloc: Global, bytes: &[u8]) -> Result<WriteStream, MsgFault>
        requires { length bytes.now < 2 ^ 32 }
        ensures { ReadsAs result (write_stream_of bytes.now) }
    {
        let found = fields(alloc, bytes)?;
        let times = read_times(alloc, bytes, found.as_slice());
        let name_and_schema = read_name_and_schema(alloc, bytes, found.as_slice());
        let ((create_time, commit_time), (name, table_schema)) = both(times, name_and_schema)?;
        Ok(WriteStream {
            name,
            stream_type: read_int32(found.as_slice(), STREAM_TYPE),
            create_time,
            commit_time,
            table_schema,
        })
    }

    /// The message as bytes.
    #[tactic(auto, using(crate::proofs::BytesLemmas::parts_join), unfolding(crate::specs::StreamBytes::write_stream_bytes))]
    pub fn encode(&self, alloc: Global) -> Result<Blob, Memory>
        ensures { IfOk result (λ b. b ≡ write_stream_bytes self.now) }
    {
        let mut out = Out::new(alloc);
        put_text(alloc, &mut out, STREAM_NAME, &self.name)?;
        put_int(alloc, &mut out, STREAM_TYPE, self.stream_type as i64)?;
        put_time(alloc, &mut out, CREATE_TIME, &self.create_time)?;
        put_time(alloc, &mut out, COMMIT_TIME, &self.commit_time)?;
        put_schema(alloc, &mut out, &self.table_schema)?;
        Ok(out.finish())
    }
}

impl CreateWriteStreamRequest {
    /// Reads a message of fewer than 2^32 bytes.
    ///
    /// It is refused where it, or a message at any depth within it, is no message of Protocol
    /// Buffers, and where one of its texts isn't UTF-8.
    #[tactic(auto, unfolding(crate::specs::Stream::create_write_stream_request_of))]
    pub fn decode(alloc: Global, bytes: &[u8]) -> Result<CreateWriteStreamRequest, MsgFault>
        requires { length bytes.now < 2 ^ 32 }
        ensures { ReadsAs result (create_write_stream_request_of bytes.now) }
    {
        let found = fields(alloc, bytes)?;
        let parent = read_text(alloc, bytes, found.as_slice(), PARENT);
        let stream = read_stream(alloc, bytes, found.as_slice());
        let (parent, write_stream) = both(parent, stream)?;
        Ok(CreateWriteStreamRequest {
            parent,
            write_stream,
        })
    }

    /// The message as bytes.
    #[tactic(auto, using(crate::proofs::BytesLemmas::parts_join), unfolding(crate::specs::StreamBytes::create_write_stream_request_bytes))]
    pub fn encode(&self, alloc: Global) -> Result<Blob, Memory>
        ensures { IfOk result (λ b. b ≡ create_write_stream_request_bytes self.now) }
    {
        let mut out = Out::new(alloc);
        put_text(alloc, &mut out, PARENT, &self.parent)?;
        put_stream(alloc, &mut out, &self.write_stream)?;
        Ok(out.finish())
    }
}
