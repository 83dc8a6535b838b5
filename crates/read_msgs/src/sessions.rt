ghost use Rattle.std.specs.Prelude.{◌≡◌, ◌≤◌, ◌<◌, ◌+◌, ◌^◌, ◌++◌, length, map, sum_by, All, IfOk, OnOk, Ok};
ghost use Rattle.std.specs.Option.{option_map};
ghost use Rattle.proto_fields.specs.Message.{fields_of, message_of};
ghost use Rattle.proto_fields.specs.Spans.{IsWithin, part, records_in, payload_size};
ghost use Rattle.write_msgs.specs.Faults.{ReadsAs};
ghost use Rattle.write_msgs.specs.Reading.{nested};
ghost use Rattle.write_msgs.specs.Repeated.{items_from, listed, repeated};
ghost use Rattle.write_msgs.specs.Writing.{message_field, repeated_field};
ghost use Rattle.read_msgs.specs.Options.{table_modifiers_of, table_read_options_of};
ghost use Rattle.read_msgs.specs.OptionsBytes.{table_modifiers_bytes, table_read_options_bytes};
ghost use Rattle.read_msgs.specs.Streams.{read_stream_of};
ghost use Rattle.read_msgs.specs.StreamsBytes.{read_stream_bytes};
ghost use Rattle.read_msgs.specs.Sessions.{asked_in, create_read_session_request_of, made_in, names_in, read_session_of, served_in, told_in, wanted_in};
ghost use Rattle.read_msgs.specs.SessionsBytes.{create_read_session_request_bytes, read_session_bytes};

use crate::numbers::{
    AVRO_SCHEMA, DATA_FORMAT, EXPIRE_TIME, MAX_STREAM_COUNT, PARENT, READ_OPTIONS, READ_SESSION,
    SESSION_NAME, STREAMS, TABLE, TABLE_MODIFIERS,
};
use crate::options::{TableModifiers, TableReadOptions};
use crate::reading::{read_format, read_time};
use crate::rows::{AvroSchema, put_schema, read_schema};
use crate::streams::{ReadStream, ReadStreams};
use crate::writing::put_time;
use outside::{Blob, Memory, Span, Text};
use proto_fields::{Field, Out, all_bytes, fields};
use std::alloc::Global;
use write_msgs::{
    MsgFault, Timestamp, both, in_nth_field, inner_message, occurrence, present, put_int, put_text,
    read_int32, read_text, with_item,
};

/// A read session, or what is asked of one.
#[derive(Drop)]
pub struct ReadSession {
    pub name: Text,
    /// The moment from which it is read no more, where the message gives one.
    pub expire_time: Option<Timestamp>,
    /// The code of the format of its rows: 1 is AVRO.
    pub data_format: i32,
    /// The schema of its rows, where the message gives it.
    pub avro_schema: Option<AvroSchema>,
    /// The name of the table.
    pub table: Text,
    /// Which state of the table is read, where the message says it.
    pub table_modifiers: Option<TableModifiers>,
    /// Which columns and rows are read, where the message says it.
    pub read_options: Option<TableReadOptions>,
    pub streams: ReadStreams,
}

/// Asks that a read session be made.
#[derive(Drop)]
pub struct CreateReadSessionRequest {
    /// The name of the project.
    pub parent: Text,
    /// What is asked for, where the message gives it.
    pub read_session: Option<ReadSession>,
    /// The greatest number of read streams; 0 leaves it to the server.
    pub max_stream_count: i32,
}

/// The names of a session and its table, when it expires, and the schema of its rows.
type Told = ((Text, Text), (Option<Timestamp>, Option<AvroSchema>));

/// What is asked of a session's table, the code of its format, and its read streams.
type Wanted = (
    (Option<TableModifiers>, Option<TableReadOptions>),
    (i32, ReadStreams),
);

/// The TableModifiers of a session.
fn read_modifiers(
    alloc: Global,
    bytes: &[u8],
    found: &[Field],
) -> Result<Option<TableModifiers>, MsgFault>
    requires small { length bytes.now < 2 ^ 32 }
    requires message { fields_of bytes.now ≡ Ok (records_in bytes.now found.now) }
    requires within { All (IsWithin (length bytes.now)) found.now }
    requires size { sum_by payload_size found.now ≤ length bytes.now }
    ensures { ReadsAs result (nested table_modifiers_of TABLE_MODIFIERS bytes.now (records_in bytes.now found.now)) }
{
    let Some(inner) = inner_message(alloc, bytes, found, TABLE_MODIFIERS)? else {
        return Ok(None);
    };
    let modifiers = TableModifiers::decode(alloc, inner.bytes());
    present(modifiers, bytes, TABLE_MODIFIERS)
}

/// The TableReadOptions of a session.
fn read_options(
    alloc: Global,
    bytes: &[u8],
    found: &[Field],
) -> Result<Option<TableReadOptions>, MsgFault>
    requires small { length bytes.now < 2 ^ 32 }
    requires message { fields_of bytes.now ≡ Ok (records_in bytes.now found.now) }
    requires within { All (IsWithin (length bytes.now)) found.now }
    requires size { sum_by payload_size found.now ≤ length bytes.now }
    ensures { ReadsAs result (nested table_read_options_of READ_OPTIONS bytes.now (records_in bytes.now found.now)) }
{
    let Some(inner) = inner_message(alloc, bytes, found, READ_OPTIONS)? else {
        return Ok(None);
    };
    let options = TableReadOptions::decode(alloc, inner.bytes());
    present(options, bytes, READ_OPTIONS)
}

/// The ReadStreams at these places.
fn streams_at(alloc: Global, bytes: &[u8], spans: &[Span]) -> Result<Vec<ReadStream>, MsgFault>
    requires small { length bytes.now < 2 ^ 32 }
    requires within { All (λ s. s.start + s.len ≤ length bytes.now) spans.now }
    ensures { ReadsAs (listed result) (items_from read_stream_of 0 (map (part bytes.now) spans.now)) }
{
    let mut read = Ok(Vec::new(alloc));
    for (n, span) in spans.iter().enumerate() {
        read = with_item(read, ReadStream::decode(alloc, occurrence(bytes, *span)), n);
    }
    read
}

/// The read streams of a session.
fn read_streams(alloc: Global, bytes: &[u8], found: &[Field]) -> Result<ReadStreams, MsgFault>
    requires small { length bytes.now < 2 ^ 32 }
    requires message { fields_of bytes.now ≡ Ok (records_in bytes.now found.now) }
    requires within { All (IsWithin (length bytes.now)) found.now }
    ensures { ReadsAs result (repeated read_stream_of STREAMS bytes.now (records_in bytes.now found.now)) }
{
    let spans = all_bytes(alloc, found, STREAMS)?;
    match streams_at(alloc, bytes, spans.as_slice()) {
        Ok(streams) => Ok(ReadStreams::from_vec(streams)),
        Err(fault) => Err(in_nth_field(fault, bytes, STREAMS)),
    }
}

/// The names of a session and its table.
fn read_names(alloc: Global, bytes: &[u8], found: &[Field]) -> Result<(Text, Text), MsgFault>
    requires { All (IsWithin (length bytes.now)) found.now }
    ensures { ReadsAs result (names_in (records_in bytes.now found.now)) }
{
    let name = read_text(alloc, bytes, found, SESSION_NAME);
    both(name, read_text(alloc, bytes, found, TABLE))
}

/// When a session expires, and the schema of its rows.
fn read_made(
    alloc: Global,
    bytes: &[u8],
    found: &[Field],
) -> Result<(Option<Timestamp>, Option<AvroSchema>), MsgFault>
    requires small { length bytes.now < 2 ^ 32 }
    requires message { fields_of bytes.now ≡ Ok (records_in bytes.now found.now) }
    requires within { All (IsWithin (length bytes.now)) found.now }
    requires size { sum_by payload_size found.now ≤ length bytes.now }
    ensures { ReadsAs result (made_in bytes.now (records_in bytes.now found.now)) }
{
    let expires = read_time(alloc, bytes, found, EXPIRE_TIME);
    both(expires, read_schema(alloc, bytes, found, AVRO_SCHEMA))
}

/// What is asked of a session's table.
fn read_asked(
    alloc: Global,
    bytes: &[u8],
    found: &[Field],
) -> Result<(Option<TableModifiers>, Option<TableReadOptions>), MsgFault>
    requires small { length bytes.now < 2 ^ 32 }
    requires message { fields_of bytes.now ≡ Ok (records_in bytes.now found.now) }
    requires within { All (IsWithin (length bytes.now)) found.now }
    requires size { sum_by payload_size found.now ≤ length bytes.now }
    ensures { ReadsAs result (asked_in bytes.now (records_in bytes.now found.now)) }
{
    let modifiers = read_modifiers(alloc, bytes, found);
    both(modifiers, read_options(alloc, bytes, found))
}

/// The format of a session, where it is served, and its read streams.
fn read_served(alloc: Global, bytes: &[u8], found: &[Field]) -> Result<(i32, ReadStreams), MsgFault>
    requires small { length bytes.now < 2 ^ 32 }
    requires message { fields_of bytes.now ≡ Ok (records_in bytes.now found.now) }
    requires within { All (IsWithin (length bytes.now)) found.now }
    ensures { ReadsAs result (served_in bytes.now (records_in bytes.now found.now)) }
{
    let format = read_format(found);
    both(format, read_streams(alloc, bytes, found))
}

/// What names a session and what the server tells of it.
fn read_told(alloc: Global, bytes: &[u8], found: &[Field]) -> Result<Told, MsgFault>
    requires small { length bytes.now < 2 ^ 32 }
    requires message { fields_of bytes.now ≡ Ok (records_in bytes.now found.now) }
    requires within { All (IsWithin (length bytes.now)) found.now }
    requires size { sum_by payload_size found.now ≤ length bytes.now }
    ensures { ReadsAs result (told_in bytes.now (records_in bytes.now found.now)) }
{
    let names = read_names(alloc, bytes, found);
    both(names, read_made(alloc, bytes, found))
}

/// What is asked of a session's table, its format and its read streams.
fn read_wanted(alloc: Global, bytes: &[u8], found: &[Field]) -> Result<Wanted, MsgFault>
    requires small { length bytes.now < 2 ^ 32 }
    requires message { fields_of bytes.now ≡ Ok (records_in bytes.now found.now) }
    requires within { All (IsWithin (length bytes.now)) found.now }
    requires size { sum_by payload_size found.now ≤ length bytes.now }
    ensures { ReadsAs result (wanted_in bytes.now (records_in bytes.now found.now)) }
{
    let asked = read_asked(alloc, bytes, found);
    both(asked, read_served(alloc, bytes, found))
}

/// The session that is asked for.
fn read_session(
    alloc: Global,
    bytes: &[u8],
    found: &[Field],
) -> Result<Option<ReadSession>, MsgFault>
    requires small { length bytes.now < 2 ^ 32 }
    requires message { fields_of bytes.now ≡ Ok (records_in bytes.now found.now) }
    requires within { All (IsWithin (length bytes.now)) found.now }
    requires size { sum_by payload_size found.now ≤ length bytes.now }
    ensures { ReadsAs result (nested read_session_of READ_SESSION bytes.now (records_in bytes.now found.now)) }
{
    let Some(inner) = inner_message(alloc, bytes, found, READ_SESSION)? else {
        return Ok(None);
    };
    let session = ReadSession::decode(alloc, inner.bytes());
    present(session, bytes, READ_SESSION)
}

fn put_modifiers(
    alloc: Global,
    out: &mut Out,
    modifiers: &Option<TableModifiers>,
) -> Result<(), Memory>
    ensures { OnOk result (out.new ≡ out.old ++ message_of (message_field TABLE_MODIFIERS (option_map table_modifiers_bytes modifiers.now))) }
{
    let Some(modifiers) = modifiers else {
        return Ok(());
    };
    let message = modifiers.encode(alloc)?;
    out.bytes(alloc, TABLE_MODIFIERS, message.bytes())
}

fn put_options(
    alloc: Global,
    out: &mut Out,
    options: &Option<TableReadOptions>,
) -> Result<(), Memory>
    ensures { OnOk result (out.new ≡ out.old ++ message_of (message_field READ_OPTIONS (option_map table_read_options_bytes options.now))) }
{
    let Some(options) = options else {
        return Ok(());
    };
    let message = options.encode(alloc)?;
    out.bytes(alloc, READ_OPTIONS, message.bytes())
}

fn put_streams(alloc: Global, out: &mut Out, streams: &[ReadStream]) -> Result<(), Memory>
    ensures { OnOk result (out.new ≡ out.old ++ message_of (repeated_field STREAMS (map read_stream_bytes streams.now))) }
{
    for stream in streams {
        let message = stream.encode(alloc)?;
        out.bytes(alloc, STREAMS, message.bytes())?;
    }
    Ok(())
}

fn put_session(alloc: Global, out: &mut Out, session: &Option<ReadSession>) -> Result<(), Memory>
    ensures { OnOk result (out.new ≡ out.old ++ message_of (message_field READ_SESSION (option_map read_session_bytes session.now))) }
{
    let Some(session) = session else {
        return Ok(());
    };
    let message = session.encode(alloc)?;
    out.bytes(alloc, READ_SESSION, message.bytes())
}

impl ReadSession {
    /// Reads a message of fewer than 2^32 bytes.
    ///
    /// It is refused where it, or a message within it, is no message of Protocol Buffers; where its
    /// format is ARROW (field 3) or its TableReadOptions ask for a sample (field 5); and where one of
    /// its texts isn't UTF-8.
    #[tactic(auto, unfolding(crate::specs::Sessions::read_session_of))]
    pub fn decode(alloc: Global, bytes: &[u8]) -> Result<ReadSession, MsgFault>
        requires { length bytes.now < 2 ^ 32 }
        ensures { ReadsAs result (read_session_of bytes.now) }
    {
        let found = fields(alloc, bytes)?;
        let told = read_told(alloc, bytes, found.as_slice());
        let wanted = read_wanted(alloc, bytes, found.as_slice());
        let (told, wanted) = both(told, wanted)?;
        let ((name, table), (expire_time, avro_schema)) = told;
        let ((table_modifiers, read_options), (data_format, streams)) = wanted;
        Ok(ReadSession {
            name,
            expire_time,
            data_format,
            avro_schema,
            table,
            table_modifiers,
            read_options,
            streams,
        })
    }

    /// The message as bytes.
    #[tactic(auto, using(crate::proofs::FieldLemmas::parts_join), unfolding(crate::specs::SessionsBytes::read_session_bytes))]
    pub fn encode(&self, alloc: Global) -> Result<Blob, Memory>
        ensures { IfOk result (λ b. b ≡ read_session_bytes self.now) }
    {
        let mut out = Out::new(alloc);
        put_text(alloc, &mut out, SESSION_NAME, &self.name)?;
        put_time(alloc, &mut out, EXPIRE_TIME, &self.expire_time)?;
        put_int(alloc, &mut out, DATA_FORMAT, self.data_format as i64)?;
        put_schema(alloc, &mut out, AVRO_SCHEMA, &self.avro_schema)?;
        put_text(alloc, &mut out, TABLE, &self.table)?;
        put_modifiers(alloc, &mut out, &self.table_modifiers)?;
        put_options(alloc, &mut out, &self.read_options)?;
        put_streams(alloc, &mut out, self.streams.streams())?;
        Ok(out.finish())
    }
}

impl CreateReadSessionRequest {
    /// Reads a message of fewer than 2^32 bytes.
    ///
    /// It is refused where it, or a message within it, is no message of Protocol Buffers; where its
    /// ReadSession asks for the format ARROW (field 3) or for a sample (field 5); and where one of
    /// its texts isn't UTF-8.
    #[tactic(auto, unfolding(crate::specs::Sessions::create_read_session_request_of))]
    pub fn decode(alloc: Global, bytes: &[u8]) -> Result<CreateReadSessionRequest, MsgFault>
        requires { length bytes.now < 2 ^ 32 }
        ensures { ReadsAs result (create_read_session_request_of bytes.now) }
    {
        let found = fields(alloc, bytes)?;
        let parent = read_text(alloc, bytes, found.as_slice(), PARENT);
        let session = read_session(alloc, bytes, found.as_slice());
        let (parent, read_session) = both(parent, session)?;
        Ok(CreateReadSessionRequest {
            parent,
            read_session,
            max_stream_count: read_int32(found.as_slice(), MAX_STREAM_COUNT),
        })
    }

    /// The message as bytes.
    #[tactic(auto, using(crate::proofs::FieldLemmas::parts_join), unfolding(crate::specs::SessionsBytes::create_read_session_request_bytes))]
    pub fn encode(&self, alloc: Global) -> Result<Blob, Memory>
        ensures { IfOk result (λ b. b ≡ create_read_session_request_bytes self.now) }
    {
        let mut out = Out::new(alloc);
        put_text(alloc, &mut out, PARENT, &self.parent)?;
        put_session(alloc, &mut out, &self.read_session)?;
        put_int(
            alloc,
            &mut out,
            MAX_STREAM_COUNT,
            self.max_stream_count as i64,
        )?;
        Ok(out.finish())
    }
}
