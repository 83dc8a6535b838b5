//! What a message carries.

ghost use Rattle.std.specs.Prelude.{◌≡◌};
ghost use Rattle.std.specs.Option.{option_map};
ghost use Rattle.call_append.specs.Writer.{rows_named, schema_named};

use outside::Blob;
use write_msgs::{AppendRowsRequest, ProtoData};

/// The descriptor of the writer schema that a message names, if it names one.
pub(crate) fn schema_named(request: &AppendRowsRequest) -> Option<&[u8]>
    ensures { option_map (λ descriptor. descriptor.now) result ≡ schema_named request.now }
{
    let schema = request.proto_rows.as_ref()?.writer_schema.as_ref()?;
    match &schema.proto_descriptor {
        Some(descriptor) => Some(descriptor.bytes()),
        None => Some(&[]),
    }
}

/// The rows of a message.
pub(crate) fn rows_named(request: &AppendRowsRequest) -> &[Blob]
    ensures { result.now ≡ rows_named request.now }
{
    match &request.proto_rows {
        Some(
            ProtoData {
                rows: Some(rows),
                ..
            },
        ) => rows.serialized_rows.blobs(),
        _ => &[],
    }
}
