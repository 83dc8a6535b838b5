ghost use Rattle.std.specs.Prelude.{◌≡◌, ◌≤◌, ◌<◌, ◌^◌, length, sum_by, All, Ok};
ghost use Rattle.proto_fields.specs.Message.{fields_of};
ghost use Rattle.proto_fields.specs.Spans.{IsWithin, records_in, payload_size};
ghost use Rattle.write_msgs.specs.Faults.{ReadsAs};
ghost use Rattle.write_msgs.specs.Reading.{nested};
ghost use Rattle.write_msgs.specs.Request.{proto_schema_of, proto_rows_of, proto_data_of};

use crate::faults::{MsgFault, both};
use crate::nested::{copies, inner_message, present};
use crate::numbers::{PROTO_DESCRIPTOR, ROWS, SERIALIZED_ROWS, WRITER_SCHEMA};
use outside::{Blob, Blobs};
use proto_fields::{Field, all_bytes, fields, merged};
use std::alloc::Global;

/// What describes the rows.
#[derive(Drop)]
pub struct ProtoSchema {
    /// A DescriptorProto: all occurrences of its field joined.
    pub proto_descriptor: Option<Blob>,
}

/// Rows in the format of Protocol Buffers.
#[derive(Drop)]
pub struct ProtoRows {
    /// Each row is one message.
    pub serialized_rows: Blobs,
}

/// Rows and what describes them.
#[derive(Drop)]
pub struct ProtoData {
    pub writer_schema: Option<ProtoSchema>,
    pub rows: Option<ProtoRows>,
}

/// A ProtoSchema.
#[tactic(auto, unfolding(crate::specs::Request::proto_schema_of))]
fn proto_schema(alloc: Global, bytes: &[u8]) -> Result<ProtoSchema, MsgFault>
    requires { length bytes.now < 2 ^ 32 }
    ensures { ReadsAs result (proto_schema_of bytes.now) }
{
    let found = fields(alloc, bytes)?;
    let proto_descriptor = merged(alloc, bytes, found.as_slice(), PROTO_DESCRIPTOR)?;
    Ok(ProtoSchema { proto_descriptor })
}

/// A ProtoRows.
#[tactic(auto, unfolding(crate::specs::Request::proto_rows_of))]
fn proto_rows(alloc: Global, bytes: &[u8]) -> Result<ProtoRows, MsgFault>
    requires { length bytes.now < 2 ^ 32 }
    ensures { ReadsAs result (proto_rows_of bytes.now) }
{
    let found = fields(alloc, bytes)?;
    let spans = all_bytes(alloc, found.as_slice(), SERIALIZED_ROWS)?;
    let rows = copies(alloc, bytes, spans.as_slice())?;
    Ok(ProtoRows {
        serialized_rows: Blobs::from_vec(rows),
    })
}

/// The schema within a ProtoData.
fn read_schema(
    alloc: Global,
    bytes: &[u8],
    found: &[Field],
) -> Result<Option<ProtoSchema>, MsgFault>
    requires small { length bytes.now < 2 ^ 32 }
    requires message { fields_of bytes.now ≡ Ok (records_in bytes.now found.now) }
    requires within { All (IsWithin (length bytes.now)) found.now }
    requires size { sum_by payload_size found.now ≤ length bytes.now }
    ensures { ReadsAs result (nested proto_schema_of WRITER_SCHEMA bytes.now (records_in bytes.now found.now)) }
{
    let Some(inner) = inner_message(alloc, bytes, found, WRITER_SCHEMA)? else {
        return Ok(None);
    };
    present(proto_schema(alloc, inner.bytes()), bytes, WRITER_SCHEMA)
}

/// The rows within a ProtoData.
fn read_rows(alloc: Global, bytes: &[u8], found: &[Field]) -> Result<Option<ProtoRows>, MsgFault>
    requires small { length bytes.now < 2 ^ 32 }
    requires message { fields_of bytes.now ≡ Ok (records_in bytes.now found.now) }
    requires within { All (IsWithin (length bytes.now)) found.now }
    requires size { sum_by payload_size found.now ≤ length bytes.now }
    ensures { ReadsAs result (nested proto_rows_of ROWS bytes.now (records_in bytes.now found.now)) }
{
    let Some(inner) = inner_message(alloc, bytes, found, ROWS)? else {
        return Ok(None);
    };
    present(proto_rows(alloc, inner.bytes()), bytes, ROWS)
}

/// A ProtoData.
#[tactic(auto, unfolding(crate::specs::Request::proto_data_of))]
pub(crate) fn proto_data(alloc: Global, bytes: &[u8]) -> Result<ProtoData, MsgFault>
    requires { length bytes.now < 2 ^ 32 }
    ensures { ReadsAs result (proto_data_of bytes.now) }
{
    let found = fields(alloc, bytes)?;
    let schema = read_schema(alloc, bytes, found.as_slice());
    let rows = read_rows(alloc, bytes, found.as_slice());
    let (writer_schema, rows) = both(schema, rows)?;
    Ok(ProtoData {
        writer_schema,
        rows,
    })
}
