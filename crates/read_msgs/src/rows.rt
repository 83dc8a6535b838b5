ghost use Rattle.std.specs.Prelude.{◌≡◌, ◌≤◌, ◌<◌, ◌^◌, ◌++◌, length, sum_by, All, IfOk, OnOk, Ok};
ghost use Rattle.std.specs.Option.{option_map};
ghost use Rattle.proto_fields.specs.Message.{fields_of, message_of};
ghost use Rattle.proto_fields.specs.Spans.{IsWithin, records_in, payload_size};
ghost use Rattle.write_msgs.specs.Faults.{ReadsAs};
ghost use Rattle.write_msgs.specs.Reading.{nested};
ghost use Rattle.write_msgs.specs.Writing.{message_field, text_field};
ghost use Rattle.read_msgs.specs.Rows.{avro_rows_of, avro_schema_of, read_rows_request_of, read_rows_response_of};
ghost use Rattle.read_msgs.specs.RowsBytes.{avro_rows_bytes, avro_schema_bytes, read_rows_request_bytes, read_rows_response_bytes};

use crate::numbers::{
    AVRO_ROWS, OFFSET, READ_STREAM, ROW_COUNT, ROWS_SCHEMA, SCHEMA, SERIALIZED_BINARY_ROWS,
};
use crate::reading::{read_blob, read_int64};
use crate::writing::put_blob;
use outside::{Blob, Memory, Text};
use proto_fields::{Field, Out, fields, varint_len};
use std::alloc::Global;
use write_msgs::{MsgFault, both, inner_message, present, put_int, put_text, read_text};

/// Rows in the format of Apache Avro.
#[derive(Drop)]
pub struct AvroRows {
    /// The rows' datums, one behind another.
    pub serialized_binary_rows: Blob,
}

impl AvroRows {
    /// Reads a message of fewer than 2^32 bytes.
    ///
    /// It is refused where it is no message of Protocol Buffers.
    #[tactic(auto, unfolding(crate::specs::Rows::avro_rows_of))]
    pub fn decode(alloc: Global, bytes: &[u8]) -> Result<AvroRows, MsgFault>
        requires { length bytes.now < 2 ^ 32 }
        ensures { ReadsAs result (avro_rows_of bytes.now) }
    {
        let found = fields(alloc, bytes)?;
        let rows = read_blob(alloc, bytes, found.as_slice(), SERIALIZED_BINARY_ROWS)?;
        Ok(AvroRows {
            serialized_binary_rows: rows,
        })
    }

    /// The message as bytes.
    #[tactic(auto, unfolding(crate::specs::RowsBytes::avro_rows_bytes))]
    pub fn encode(&self, alloc: Global) -> Result<Blob, Memory>
        ensures { IfOk result (λ b. b ≡ avro_rows_bytes self.now) }
    {
        let mut out = Out::new(alloc);
        put_blob(
            alloc,
            &mut out,
            SERIALIZED_BINARY_ROWS,
            &self.serialized_binary_rows,
        )?;
        Ok(out.finish())
    }
}

/// The schema of rows in the format of Apache Avro.
#[derive(Drop)]
pub struct AvroSchema {
    /// The schema as a text of JSON.
    pub schema: Text,
}

impl AvroSchema {
    /// Reads a message of fewer than 2^32 bytes.
    ///
    /// It is refused where it is no message of Protocol Buffers, and where its text isn't UTF-8.
    #[tactic(auto, unfolding(crate::specs::Rows::avro_schema_of))]
    pub fn decode(alloc: Global, bytes: &[u8]) -> Result<AvroSchema, MsgFault>
        requires { length bytes.now < 2 ^ 32 }
        ensures { ReadsAs result (avro_schema_of bytes.now) }
    {
        let found = fields(alloc, bytes)?;
        let schema = read_text(alloc, bytes, found.as_slice(), SCHEMA)?;
        Ok(AvroSchema { schema })
    }

    /// The message as bytes.
    #[tactic(auto, unfolding(crate::specs::RowsBytes::avro_schema_bytes))]
    pub fn encode(&self, alloc: Global) -> Result<Blob, Memory>
        ensures { IfOk result (λ b. b ≡ avro_schema_bytes self.now) }
    {
        let mut out = Out::new(alloc);
        put_text(alloc, &mut out, SCHEMA, &self.schema)?;
        Ok(out.finish())
    }
}

/// The AvroSchema in the field of this number, where there is one.
pub(crate) fn read_schema(
    alloc: Global,
    bytes: &[u8],
    found: &[Field],
    number: u32,
) -> Result<Option<AvroSchema>, MsgFault>
    requires small { length bytes.now < 2 ^ 32 }
    requires message { fields_of bytes.now ≡ Ok (records_in bytes.now found.now) }
    requires within { All (IsWithin (length bytes.now)) found.now }
    requires size { sum_by payload_size found.now ≤ length bytes.now }
    ensures { ReadsAs result (nested avro_schema_of number bytes.now (records_in bytes.now found.now)) }
{
    let Some(inner) = inner_message(alloc, bytes, found, number)? else {
        return Ok(None);
    };
    present(AvroSchema::decode(alloc, inner.bytes()), bytes, number)
}

/// Writes an AvroSchema, if there is one.
pub(crate) fn put_schema(
    alloc: Global,
    out: &mut Out,
    number: u32,
    schema: &Option<AvroSchema>,
) -> Result<(), Memory>
    requires low { 1 ≤ number }
    requires high { number ≤ 536870911 }
    ensures { OnOk result (out.new ≡ out.old ++ message_of (message_field number (option_map avro_schema_bytes schema.now))) }
{
    let Some(schema) = schema else {
        return Ok(());
    };
    let message = schema.encode(alloc)?;
    out.bytes(alloc, number, message.bytes())
}

/// Asks for the rows of a read stream.
#[derive(Drop)]
pub struct ReadRowsRequest {
    /// The name of the read stream.
    pub read_stream: Text,
    /// The number of its rows that are passed over.
    pub offset: i64,
}

impl ReadRowsRequest {
    /// Reads a message of fewer than 2^32 bytes.
    ///
    /// It is refused where it is no message of Protocol Buffers, and where a text of it isn't UTF-8.
    #[tactic(auto, unfolding(crate::specs::Rows::read_rows_request_of))]
    pub fn decode(alloc: Global, bytes: &[u8]) -> Result<ReadRowsRequest, MsgFault>
        requires { length bytes.now < 2 ^ 32 }
        ensures { ReadsAs result (read_rows_request_of bytes.now) }
    {
        let found = fields(alloc, bytes)?;
        let read_stream = read_text(alloc, bytes, found.as_slice(), READ_STREAM)?;
        Ok(ReadRowsRequest {
            read_stream,
            offset: read_int64(found.as_slice(), OFFSET),
        })
    }

    /// The message as bytes.
    #[tactic(auto, using(crate::proofs::FieldLemmas::parts_join), unfolding(crate::specs::RowsBytes::read_rows_request_bytes))]
    pub fn encode(&self, alloc: Global) -> Result<Blob, Memory>
        ensures { IfOk result (λ b. b ≡ read_rows_request_bytes self.now) }
    {
        let mut out = Out::new(alloc);
        put_text(alloc, &mut out, READ_STREAM, &self.read_stream)?;
        put_int(alloc, &mut out, OFFSET, self.offset)?;
        Ok(out.finish())
    }
}

/// Some rows of a read stream, of which there are one or several of these messages.
#[derive(Drop)]
pub struct ReadRowsResponse {
    /// The rows, where the message gives them.
    pub avro_rows: Option<AvroRows>,
    /// The number of rows.
    pub row_count: i64,
    /// The schema of the rows, where the message gives it.
    pub avro_schema: Option<AvroSchema>,
}

/// The rows of a response.
fn read_avro_rows(
    alloc: Global,
    bytes: &[u8],
    found: &[Field],
) -> Result<Option<AvroRows>, MsgFault>
    requires small { length bytes.now < 2 ^ 32 }
    requires message { fields_of bytes.now ≡ Ok (records_in bytes.now found.now) }
    requires within { All (IsWithin (length bytes.now)) found.now }
    requires size { sum_by payload_size found.now ≤ length bytes.now }
    ensures { ReadsAs result (nested avro_rows_of AVRO_ROWS bytes.now (records_in bytes.now found.now)) }
{
    let Some(inner) = inner_message(alloc, bytes, found, AVRO_ROWS)? else {
        return Ok(None);
    };
    present(AvroRows::decode(alloc, inner.bytes()), bytes, AVRO_ROWS)
}

/// How long bytes are as a field, with what stands in front of them; a field without any is not written.
fn blob_len(number: u32, blob: &Blob) -> Result<usize, Memory>
    requires { number ≤ 536870911 }
    ensures { IfOk result (λ n. n ≡ length (message_of (text_field number blob.now))) }
{
    match blob.bytes().len() {
        0 => Ok(0),
        len => {
            let front = varint_len(number as u64 * 8 + 2) + varint_len(len as u64);
            front.checked_add(len).ok_or(Memory)
        }
    }
}

/// Writes the rows of a response, if it gives them. They are copied once, into the response itself.
fn put_avro_rows(alloc: Global, out: &mut Out, rows: &Option<AvroRows>) -> Result<(), Memory>
    ensures { OnOk result (out.new ≡ out.old ++ message_of (message_field AVRO_ROWS (option_map avro_rows_bytes rows.now))) }
{
    let Some(rows) = rows else {
        return Ok(());
    };
    let data = &rows.serialized_binary_rows;
    out.head(alloc, AVRO_ROWS, blob_len(SERIALIZED_BINARY_ROWS, data)?)?;
    put_blob(alloc, out, SERIALIZED_BINARY_ROWS, data)
}

impl ReadRowsResponse {
    /// Reads a message of fewer than 2^32 bytes.
    ///
    /// It is refused where it, or a message within it, is no message of Protocol Buffers, and where
    /// one of its texts isn't UTF-8.
    #[tactic(auto, unfolding(crate::specs::Rows::read_rows_response_of))]
    pub fn decode(alloc: Global, bytes: &[u8]) -> Result<ReadRowsResponse, MsgFault>
        requires { length bytes.now < 2 ^ 32 }
        ensures { ReadsAs result (read_rows_response_of bytes.now) }
    {
        let found = fields(alloc, bytes)?;
        let rows = read_avro_rows(alloc, bytes, found.as_slice());
        let schema = read_schema(alloc, bytes, found.as_slice(), ROWS_SCHEMA);
        let (avro_rows, avro_schema) = both(rows, schema)?;
        Ok(ReadRowsResponse {
            avro_rows,
            row_count: read_int64(found.as_slice(), ROW_COUNT),
            avro_schema,
        })
    }

    /// The message as bytes.
    #[tactic(auto, using(crate::proofs::FieldLemmas::parts_join), unfolding(crate::specs::RowsBytes::read_rows_response_bytes))]
    pub fn encode(&self, alloc: Global) -> Result<Blob, Memory>
        ensures { IfOk result (λ b. b ≡ read_rows_response_bytes self.now) }
    {
        let mut out = Out::new(alloc);
        put_avro_rows(alloc, &mut out, &self.avro_rows)?;
        put_int(alloc, &mut out, ROW_COUNT, self.row_count)?;
        put_schema(alloc, &mut out, ROWS_SCHEMA, &self.avro_schema)?;
        Ok(out.finish())
    }
}
