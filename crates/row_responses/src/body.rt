//! The responses of a call, one by one.

ghost use Rattle.std.specs.Prelude.{◌≡◌, ◌≢◌, [], pos, true, Some, None, IfOk, OnErr, if◌then◌else◌};
ghost use Rattle.column_types.specs.Fields.{IsMadeFor, projected};
ghost use Rattle.read_msgs.specs.RowsBytes.{read_rows_response_bytes};
ghost use Rattle.row_responses.specs.Body.{IsOf, Nexts, is_new_behind, left_of};
ghost use Rattle.row_responses.specs.Responses.{schema_of};

use crate::batch::{Batch, next_batch};
use avro_rows::schema_text;
use column_types::{Fields, Schema};
use outside::{Blob, Memory};
use read_cursor::{Cursor, Lease};
use read_msgs::{AvroRows, AvroSchema, ReadRowsResponse};
use std::alloc::Global;
use std::marker::Model;

/// What a body gives next.
#[derive(Drop)]
pub enum NextResponse {
    /// A ReadRowsResponse, with 1 to 1,024 rows.
    Response(Blob),
    /// All were given.
    End,
    /// The offset is beyond the number of matching rows, `matched`. None was given.
    PastEnd { matched: u64 },
}

/// The responses of a ReadRows call that are still to give. Contracts see where it stands in its lease, and whether no
/// response was given yet.
#[derive(Drop)]
pub struct ReadBody {
    cursor: Cursor,
    is_new: bool,
}

impl Model for ReadBody {
    ghost use Rattle.std.specs.Coded.{codes};
    ghost use Rattle.column_types.specs.contracts.predicate.Pred as pred_code;
    ghost use Rattle.row_responses.specs.Body.{Body};

    ghost Value = { Body };

    ghost coded = { Prim.hlevel (codes, pred_code.the_row.coded) };

    ghost view = { λ b. record { reading = b.cursor; is_new = b.is_new } };
}

impl ReadBody {
    /// The responses of a lease's matching rows behind the first `offset` ones. It asks for no memory.
    pub fn new(lease: Lease, offset: u64) -> ReadBody
        ensures { result ≡ record { reading = record { lease = lease; at = offset }; is_new = true } }
    {
        ReadBody {
            cursor: Cursor::new(lease, offset),
            is_new: true,
        }
    }

    /// The next response, by the schema of the lease's rows. `End` comes exactly where all were given, `PastEnd` exactly
    /// where the offset exceeds the number of matching rows, which it carries. Want of memory comes only where a response is
    /// still to give, and leaves the body as it was.
    pub fn next(&mut self, alloc: Global, schema: &Schema) -> Result<NextResponse, Memory>
        requires { IsOf schema.now self.old.reading.lease }
        ensures ok { IfOk result (Nexts schema.now self.old self.new) }
        ensures err { OnErr result (self.new ≡ self.old) }
        ensures wants { OnErr result (left_of schema.now self.old ≢ []) }
    {
        let mark = self.cursor.mark();
        match next_response(alloc, schema, &mut self.cursor, self.is_new) {
            Ok(NextResponse::Response(message)) => {
                self.is_new = false;
                Ok(NextResponse::Response(message))
            }
            Ok(end) => Ok(end),
            Err(memory) => {
                self.cursor.go_to(mark);
                Err(memory)
            }
        }
    }
}

/// The next response of the rows that a cursor still gives, with the schema or without.
fn next_response(
    alloc: Global,
    schema: &Schema,
    cursor: &mut Cursor,
    has_schema: bool,
) -> Result<NextResponse, Memory>
    requires { IsOf schema.now cursor.old.lease }
    ensures lease { cursor.new.lease ≡ cursor.old.lease }
    ensures nexts { IfOk result (λ next. Nexts schema.now (record { reading = cursor.old; is_new = has_schema })
        (record { reading = cursor.new; is_new = is_new_behind has_schema next }) next) }
    ensures wants { OnErr result (left_of schema.now (record { reading = cursor.old; is_new = has_schema }) ≢ []) }
{
    match next_batch(alloc, schema, cursor)? {
        Batch::Rows { written, count } => {
            let fields = cursor.lease().fields();
            let message = message_of(alloc, schema, fields, has_schema, written, count)?;
            Ok(NextResponse::Response(message))
        }
        Batch::End => Ok(NextResponse::End),
        Batch::PastEnd { matched } => Ok(NextResponse::PastEnd { matched }),
    }
}

/// The response of `count` rows with these data.
fn message_of(
    alloc: Global,
    schema: &Schema,
    fields: &Fields,
    has_schema: bool,
    written: Blob,
    count: u32,
) -> Result<Blob, Memory>
    requires { IsMadeFor schema.now fields.now }
    ensures { IfOk result (λ message. message ≡ read_rows_response_bytes (record {
      avro_rows = Some (record { serialized_binary_rows = written });
      row_count = pos count;
      avro_schema = if has_schema then Some (schema_of (projected fields.now schema.now)) else None;
    })) }
{
    let mut avro_schema = None;
    if has_schema {
        let schema = schema_text(alloc, schema, fields)?;
        avro_schema = Some(AvroSchema { schema });
    }
    let response = ReadRowsResponse {
        avro_rows: Some(AvroRows {
            serialized_binary_rows: written,
        }),
        row_count: i64::from(count),
        avro_schema,
    };
    response.encode(alloc)
}
