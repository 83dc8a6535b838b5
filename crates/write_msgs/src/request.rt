ghost use Rattle.std.specs.Prelude.{◌≡◌, ◌≤◌, ◌<◌, ◌^◌, length, sum_by, All, IfOk, Ok};
ghost use Rattle.proto_fields.specs.Message.{fields_of};
ghost use Rattle.proto_fields.specs.Spans.{IsWithin, records_in, payload_size};
ghost use Rattle.write_msgs.specs.Faults.{ReadsAs};
ghost use Rattle.write_msgs.specs.Reading.{nested};
ghost use Rattle.write_msgs.specs.Request.{int64_value_of, proto_data_of, place_in, data_in, append_rows_request_of};
ghost use Rattle.write_msgs.specs.RequestBytes.{append_rows_request_bytes};

use crate::faults::{MsgFault, both};
use crate::nested::{inner_message, present};
use crate::numbers::{ARROW_ROWS, OFFSET, PROTO_ROWS, WRITE_STREAM};
use crate::reading::{int64_value, read_text, refuse};
use crate::request_parts::{ProtoData, proto_data};
use crate::request_writing::put_data;
use crate::writing::{put_int64_value, put_text};
use outside::{Blob, Memory, Text};
use proto_fields::{Field, Out, fields};
use std::alloc::Global;

/// Asks that rows be appended to a write stream.
#[derive(Drop)]
pub struct AppendRowsRequest {
    /// The name of the write stream; empty where the message names none.
    pub write_stream: Text,
    /// The offset of the first row, where the message gives one.
    pub offset: Option<i64>,
    pub proto_rows: Option<ProtoData>,
}

/// The offset, an Int64Value.
fn read_offset(alloc: Global, bytes: &[u8], found: &[Field]) -> Result<Option<i64>, MsgFault>
    requires small { length bytes.now < 2 ^ 32 }
    requires message { fields_of bytes.now ≡ Ok (records_in bytes.now found.now) }
    requires within { All (IsWithin (length bytes.now)) found.now }
    requires size { sum_by payload_size found.now ≤ length bytes.now }
    ensures { ReadsAs result (nested int64_value_of OFFSET bytes.now (records_in bytes.now found.now)) }
{
    let Some(inner) = inner_message(alloc, bytes, found, OFFSET)? else {
        return Ok(None);
    };
    present(int64_value(alloc, inner.bytes()), bytes, OFFSET)
}

/// The rows, a ProtoData.
fn read_data(alloc: Global, bytes: &[u8], found: &[Field]) -> Result<Option<ProtoData>, MsgFault>
    requires small { length bytes.now < 2 ^ 32 }
    requires message { fields_of bytes.now ≡ Ok (records_in bytes.now found.now) }
    requires within { All (IsWithin (length bytes.now)) found.now }
    requires size { sum_by payload_size found.now ≤ length bytes.now }
    ensures { ReadsAs result (nested proto_data_of PROTO_ROWS bytes.now (records_in bytes.now found.now)) }
{
    let Some(inner) = inner_message(alloc, bytes, found, PROTO_ROWS)? else {
        return Ok(None);
    };
    present(proto_data(alloc, inner.bytes()), bytes, PROTO_ROWS)
}

/// The name of the write stream, and the offset.
fn read_place(alloc: Global, bytes: &[u8], found: &[Field]) -> Result<(Text, Option<i64>), MsgFault>
    requires small { length bytes.now < 2 ^ 32 }
    requires message { fields_of bytes.now ≡ Ok (records_in bytes.now found.now) }
    requires within { All (IsWithin (length bytes.now)) found.now }
    requires size { sum_by payload_size found.now ≤ length bytes.now }
    ensures { ReadsAs result (place_in bytes.now (records_in bytes.now found.now)) }
{
    let name = read_text(alloc, bytes, found, WRITE_STREAM);
    both(name, read_offset(alloc, bytes, found))
}

/// The rows, where they aren't in the ARROW format.
fn read_served_data(
    alloc: Global,
    bytes: &[u8],
    found: &[Field],
) -> Result<(Option<ProtoData>, ()), MsgFault>
    requires small { length bytes.now < 2 ^ 32 }
    requires message { fields_of bytes.now ≡ Ok (records_in bytes.now found.now) }
    requires within { All (IsWithin (length bytes.now)) found.now }
    requires size { sum_by payload_size found.now ≤ length bytes.now }
    ensures { ReadsAs result (data_in bytes.now (records_in bytes.now found.now)) }
{
    let data = read_data(alloc, bytes, found);
    both(data, refuse(found, ARROW_ROWS))
}

impl AppendRowsRequest {
    /// Reads a request of fewer than 2^32 bytes.
    ///
    /// It is refused where it, or a message within it, is no message of Protocol Buffers, where it
    /// has rows in the ARROW format (field 5), and where the name of its write stream isn't UTF-8.
    #[tactic(auto, unfolding(crate::specs::Request::append_rows_request_of))]
    pub fn decode(alloc: Global, bytes: &[u8]) -> Result<AppendRowsRequest, MsgFault>
        requires { length bytes.now < 2 ^ 32 }
        ensures { ReadsAs result (append_rows_request_of bytes.now) }
    {
        let found = fields(alloc, bytes)?;
        let place = read_place(alloc, bytes, found.as_slice());
        let data = read_served_data(alloc, bytes, found.as_slice());
        let ((write_stream, offset), (proto_rows, ())) = both(place, data)?;
        Ok(AppendRowsRequest {
            write_stream,
            offset,
            proto_rows,
        })
    }

    /// The message as bytes.
    #[tactic(auto, using(crate::proofs::WritingLemmas::message_joins), unfolding(crate::specs::RequestBytes::append_rows_request_bytes))]
    pub fn encode(&self, alloc: Global) -> Result<Blob, Memory>
        ensures { IfOk result (λ b. b ≡ append_rows_request_bytes self.now) }
    {
        let mut out = Out::new(alloc);
        put_text(alloc, &mut out, WRITE_STREAM, &self.write_stream)?;
        put_int64_value(alloc, &mut out, OFFSET, self.offset)?;
        put_data(alloc, &mut out, &self.proto_rows)?;
        Ok(out.finish())
    }
}
