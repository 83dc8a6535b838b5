ghost use Rattle.std.specs.Prelude.{◌≡◌, ◌≤◌, ◌<◌, ◌^◌, length, sum_by, All, IfOk};
ghost use Rattle.proto_fields.specs.Selection.{last_of, merged_of, payloads_of};
ghost use Rattle.proto_fields.specs.Spans.{IsWithin, records_in, payload_size};
ghost use Rattle.program.specs.Request.{ReadsAs, request_of, wrapped_int64, is_text, rows_in, request_in};

use crate::messages::{ARROW_ROWS, OFFSET, PROTO_ROWS, ROWS, SERIALIZED_ROWS, VALUE, WRITE_STREAM};
use crate::nested::{copies, inner_message};
use outside::{Blob, Blobs, Memory};
use proto_fields::{
    Field, FieldFault, all_bytes, fields, has, last_bytes, last_varint, merged, part,
};
use std::alloc::Global;

/// What one AppendRowsRequest asks of a table of opaque rows: the rows to append, and the offset that
/// was given for the first of them.
#[derive(Drop)]
pub struct Request {
    pub offset: Option<i64>,
    pub rows: Blobs,
}

/// Why a message gave no request.
#[derive(Clone, Copy, Debug, PartialEq, Eq)]
pub enum RequestFault {
    /// Want of memory.
    Memory,
    /// The message can't be read.
    Unreadable,
}

impl From<Memory> for RequestFault {
    ghost use Rattle.std.specs.Prelude.{◌≡◌};
    ghost use Rattle.program.specs.declared.requests.RequestFault.TheVariants as fault;

    ghost from_gives = { λ _ e. e ≡ fault.Memory };

    fn from(_want: Memory) -> RequestFault {
        RequestFault::Memory
    }
}

impl From<FieldFault> for RequestFault {
    ghost use Rattle.std.specs.Prelude.{◌≡◌};
    ghost use Rattle.program.specs.Fault.{request_fault};

    ghost from_gives = { λ f e. e ≡ request_fault f };

    fn from(fault: FieldFault) -> RequestFault {
        match fault {
            FieldFault::Memory => RequestFault::Memory,
            FieldFault::BadProto { .. } => RequestFault::Unreadable,
        }
    }
}

/// Reads what an AppendRowsRequest asks.
///
/// It is unreadable where it or a message within it is no message of Protocol Buffers, where the name
/// of its write stream isn't UTF-8, or where it has rows in the ARROW format.
#[tactic(auto, unfolding(crate::specs::Request::request_of))]
pub fn read_request(alloc: Global, message: &[u8]) -> Result<Request, RequestFault>
    requires { length message.now < 2 ^ 32 }
    ensures { ReadsAs (λ r. r) result (request_of message.now) }
{
    let found = fields(alloc, message)?;
    if !names_text(message, found.as_slice()) || has(found.as_slice(), ARROW_ROWS) {
        return Err(RequestFault::Unreadable);
    }
    read_fields(alloc, message, found.as_slice())
}

/// What the fields of an AppendRowsRequest ask.
fn read_fields(alloc: Global, message: &[u8], found: &[Field]) -> Result<Request, RequestFault>
    requires small { length message.now < 2 ^ 32 }
    requires within { All (IsWithin (length message.now)) found.now }
    requires size { sum_by payload_size found.now ≤ length message.now }
    ensures { ReadsAs (λ r. r) result (request_in (records_in message.now found.now)) }
{
    let offset = read_offset(alloc, message, found)?;
    let rows = read_rows(alloc, message, found)?;
    Ok(Request {
        offset,
        rows: Blobs::from_vec(rows),
    })
}

/// Whether the name of the write stream that counts, if there is one, is UTF-8.
fn names_text(message: &[u8], found: &[Field]) -> bool
    requires { All (IsWithin (length message.now)) found.now }
    ensures { result ≡ is_text (last_of (payloads_of WRITE_STREAM (records_in message.now found.now))) }
{
    match last_bytes(found, WRITE_STREAM) {
        None => true,
        Some(span) => str::from_utf8(part(message, span)).is_ok(),
    }
}

/// The offset, an Int64Value.
fn read_offset(alloc: Global, message: &[u8], found: &[Field]) -> Result<Option<i64>, RequestFault>
    requires small { length message.now < 2 ^ 32 }
    requires within { All (IsWithin (length message.now)) found.now }
    requires size { sum_by payload_size found.now ≤ length message.now }
    ensures { ReadsAs (λ o. o) result (wrapped_int64 (merged_of (payloads_of OFFSET (records_in message.now found.now)))) }
{
    let Some(value) = merged(alloc, message, found, OFFSET)? else {
        return Ok(None);
    };
    let inner = fields(alloc, value.bytes())?;
    let number = last_varint(inner.as_slice(), VALUE).unwrap_or(0);
    Ok(Some(number.cast_signed()))
}

/// The rows: serialized_rows of ProtoRows of ProtoData.
fn read_rows(alloc: Global, message: &[u8], found: &[Field]) -> Result<Vec<Blob>, RequestFault>
    requires small { length message.now < 2 ^ 32 }
    requires within { All (IsWithin (length message.now)) found.now }
    requires size { sum_by payload_size found.now ≤ length message.now }
    ensures { ReadsAs (λ rows. rows.items) result (rows_in (records_in message.now found.now)) }
{
    let data = inner_message(alloc, message, found, PROTO_ROWS)?;
    let in_data = fields(alloc, data.bytes())?;
    let rows = inner_message(alloc, data.bytes(), in_data.as_slice(), ROWS)?;
    let in_rows = fields(alloc, rows.bytes())?;
    let spans = all_bytes(alloc, in_rows.as_slice(), SERIALIZED_ROWS)?;
    Ok(copies(alloc, rows.bytes(), spans.as_slice())?)
}
