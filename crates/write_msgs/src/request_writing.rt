ghost use Rattle.std.specs.Prelude.{◌≡◌, ◌≤◌, ◌++◌, IfOk, OnOk};
ghost use Rattle.std.specs.Option.{option_map};
ghost use Rattle.proto_fields.specs.Message.{message_of};
ghost use Rattle.write_msgs.specs.Writing.{message_field};
ghost use Rattle.write_msgs.specs.RequestBytes.{proto_schema_bytes, proto_rows_bytes, proto_data_bytes};

use crate::numbers::{PROTO_DESCRIPTOR, PROTO_ROWS, ROWS, SERIALIZED_ROWS, WRITER_SCHEMA};
use crate::request_parts::{ProtoData, ProtoRows, ProtoSchema};
use outside::{Blob, Memory};
use proto_fields::Out;
use std::alloc::Global;

/// A ProtoSchema.
#[tactic(auto, unfolding(crate::specs::RequestBytes::proto_schema_bytes))]
fn write_schema(alloc: Global, schema: &ProtoSchema) -> Result<Blob, Memory>
    ensures { IfOk result (λ b. b ≡ proto_schema_bytes schema.now) }
{
    let mut out = Out::new(alloc);
    if let Some(descriptor) = &schema.proto_descriptor {
        out.bytes(alloc, PROTO_DESCRIPTOR, descriptor.bytes())?;
    }
    Ok(out.finish())
}

/// A ProtoRows.
fn write_rows(alloc: Global, rows: &ProtoRows) -> Result<Blob, Memory>
    ensures { IfOk result (λ b. b ≡ proto_rows_bytes rows.now) }
{
    let mut out = Out::new(alloc);
    for row in rows.serialized_rows.blobs() {
        out.bytes(alloc, SERIALIZED_ROWS, row.bytes())?;
    }
    Ok(out.finish())
}

fn put_schema(alloc: Global, out: &mut Out, schema: &Option<ProtoSchema>) -> Result<(), Memory>
    ensures { OnOk result (out.new ≡ out.old ++ message_of (message_field WRITER_SCHEMA (option_map proto_schema_bytes schema.now))) }
{
    let Some(schema) = schema else {
        return Ok(());
    };
    let message = write_schema(alloc, schema)?;
    out.bytes(alloc, WRITER_SCHEMA, message.bytes())
}

fn put_rows(alloc: Global, out: &mut Out, rows: &Option<ProtoRows>) -> Result<(), Memory>
    ensures { OnOk result (out.new ≡ out.old ++ message_of (message_field ROWS (option_map proto_rows_bytes rows.now))) }
{
    let Some(rows) = rows else {
        return Ok(());
    };
    let message = write_rows(alloc, rows)?;
    out.bytes(alloc, ROWS, message.bytes())
}

/// A ProtoData.
#[tactic(auto, using(crate::proofs::WritingLemmas::message_joins), unfolding(crate::specs::RequestBytes::proto_data_bytes))]
fn write_data(alloc: Global, proto_data: &ProtoData) -> Result<Blob, Memory>
    ensures { IfOk result (λ b. b ≡ proto_data_bytes proto_data.now) }
{
    let mut out = Out::new(alloc);
    put_schema(alloc, &mut out, &proto_data.writer_schema)?;
    put_rows(alloc, &mut out, &proto_data.rows)?;
    Ok(out.finish())
}

/// Writes the rows of a request, if there are any.
pub(crate) fn put_data(
    alloc: Global,
    out: &mut Out,
    proto_data: &Option<ProtoData>,
) -> Result<(), Memory>
    ensures { OnOk result (out.new ≡ out.old ++ message_of (message_field PROTO_ROWS (option_map proto_data_bytes proto_data.now))) }
{
    let Some(proto_data) = proto_data else {
        return Ok(());
    };
    let message = write_data(alloc, proto_data)?;
    out.bytes(alloc, PROTO_ROWS, message.bytes())
}
