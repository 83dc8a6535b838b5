//! Write streams as the replies describe them.

ghost use Rattle.std.specs.Prelude.{◌≡◌, IfOk};
ghost use Rattle.call_plans.specs.Described.{kind_code, kind_coded, commit_moment, described};

use crate::moments::timestamp;
use call_names::stream_text;
use outside::Memory;
use resource_names::{StreamId, TableName};
use schema_msgs::{TableSchema, WriteStream};
use std::alloc::Global;
use table_model::StreamKind;

/// The code of a type of write streams.
fn kind_code(kind: StreamKind) -> i32
    ensures { result ≡ kind_code kind }
{
    match kind {
        StreamKind::Committed => 1,
        StreamKind::Pending => 2,
        StreamKind::Buffered => 3,
    }
}

/// The type of this code, if a write stream of it can be made.
pub(crate) fn kind_coded(code: i32) -> Option<StreamKind>
    ensures { result ≡ kind_coded code }
{
    match code {
        1 => Some(StreamKind::Committed),
        2 => Some(StreamKind::Pending),
        3 => Some(StreamKind::Buffered),
        _ => None,
    }
}

fn commit_moment(kind: StreamKind, created: Option<i64>, committed: Option<i64>) -> Option<i64>
    ensures { result ≡ commit_moment kind created committed }
{
    match kind {
        StreamKind::Committed => created,
        StreamKind::Pending => committed,
        StreamKind::Buffered => None,
    }
}

/// A write stream of a table by its type and its times, in microseconds since 1970-01-01, with the table's schema where it
/// is given.
pub(crate) fn described(
    alloc: Global,
    table: &TableName,
    id: StreamId,
    kind: StreamKind,
    created: Option<i64>,
    committed: Option<i64>,
    schema: Option<TableSchema>,
) -> Result<WriteStream, Memory>
    ensures { IfOk result (λ stream. stream ≡ described table.now id kind created committed schema) }
{
    Ok(WriteStream {
        name: stream_text(alloc, table, id)?,
        stream_type: kind_code(kind),
        create_time: created.map(timestamp),
        commit_time: commit_moment(kind, created, committed).map(timestamp),
        table_schema: schema,
    })
}
