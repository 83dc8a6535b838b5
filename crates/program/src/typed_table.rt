ghost use Rattle.std.specs.Prelude.{◌≡◌, ◌≤◌, ◌<◌, ◌^◌, IfOk, IfSome, length, [], None, Some};
ghost use Rattle.std.specs.Option.{option_map};
ghost use Rattle.row_descriptor.specs.Binding.{IsBoundTo};
ghost use Rattle.call_body.specs.Answers.{AnswersOne};
ghost use Rattle.call_append.specs.Writer.{no_writer, rows_named, schema_named, writer_of};
ghost use Rattle.call_append.specs.Sizes.{IsWithin};
ghost use Rattle.program.specs.Typed.{Answered, AnswersFromTyped, Encoded, Replied, fresh, is_decodable};

use call_append::{Asker, NoResponse, Writer, answer_rows, bind_writer};
use call_body::{Answer, Answers};
use column_types::Schema;
use outside::{Blob, Memory};
use std::alloc::Global;
use std::marker::Model;
use table_engine::Engine;
use table_model::{Command, StreamKind, StreamRef, Why};
use write_msgs::{AppendRowsRequest, AppendRowsResponse, MsgFault, ProtoData};

/// The number of the one write stream.
pub const STREAM: u32 = 1;

/// Who appends: caller 0, to the one write stream, at moment 0.
const ASKER: Asker = Asker {
    caller: 0,
    stream: StreamRef::Number(STREAM),
    now: 0,
};

/// A table of typed rows with one write stream, which is COMMITTED. It answers the messages of one AppendRows call.
///
/// Contracts see its columns and its history, and the writer schema that counts.
#[derive(Drop)]
pub struct TypedTable {
    table: Engine,
    writer: Writer,
}

impl Model for TypedTable {
    ghost use Rattle.std.specs.Prelude.{IfOk};
    ghost use Rattle.std.specs.Coded.{codes};
    ghost use Rattle.column_types.specs.contracts.predicate.Pred as pred_code;
    ghost use Rattle.row_descriptor.specs.Binding.{IsBoundTo};
    ghost use Rattle.program.specs.Typed.{Call};

    ghost Value = { Call };

    ghost coded = { Prim.hlevel (codes, pred_code.the_row.coded) };

    ghost view = { λ t. record { table = t.table; writer = t.writer } };

    ghost invariant = { λ t. IfOk t.writer (IsBoundTo t.table.columns) };
}

/// The descriptor of the writer schema that a request names, if it names one.
fn schema_named(request: &AppendRowsRequest) -> Option<&[u8]>
    ensures { option_map (λ d. d.now) result ≡ schema_named request.now }
{
    let schema = request.proto_rows.as_ref()?.writer_schema.as_ref()?;
    match &schema.proto_descriptor {
        Some(descriptor) => Some(descriptor.bytes()),
        None => Some(&[]),
    }
}

/// The rows of a request.
fn rows_named(request: &AppendRowsRequest) -> &[Blob]
    ensures { result.now ≡ rows_named request.now }
{
    match &request.proto_rows {
        Some(
            ProtoData {
                rows: Some(rows),
                ..
            },
        ) => rows.serialized_rows.blobs(),
        _ => &[],
    }
}

impl TypedTable {
    /// A table with these columns, in which the write stream was created, and before a writer schema was named.
    pub fn new(alloc: Global, schema: Schema) -> Result<TypedTable, Memory>
        ensures { IfOk result (λ table. table ≡ fresh schema) }
    {
        let mut table = Engine::new(alloc, schema)?;
        let create = Command::Create {
            kind: StreamKind::Committed,
        };
        table.step(alloc, ASKER.caller, create, ASKER.now)?;
        Ok(TypedTable {
            table,
            writer: Err(Why::NoSchema),
        })
    }

    /// The writer schema that a request names, bound to the columns of the table.
    fn new_writer(
        &self,
        alloc: Global,
        request: &AppendRowsRequest,
    ) -> Result<Option<Writer>, Memory>
        requires { IfSome (schema_named request.now) (λ descriptor. length descriptor < 2 ^ 32) }
        ensures value { IfOk result (λ writer. writer ≡ option_map (writer_of self.now.table.columns) (schema_named request.now)) }
        ensures bound { IfOk result (λ writer. IfSome writer (λ w. IfOk w (IsBoundTo self.now.table.columns))) }
    {
        match schema_named(request) {
            Some(descriptor) => Ok(Some(bind_writer(alloc, self.table.schema(), descriptor)?)),
            None => Ok(None),
        }
    }

    /// Answers a request that names this writer schema, which counts from now on.
    fn answer_by(
        &mut self,
        alloc: Global,
        request: &AppendRowsRequest,
        writer: Writer,
    ) -> Result<Blob, NoResponse>
        requires small { IsWithin 4294967295 request.now }
        requires named { option_map (writer_of self.old.table.columns) (schema_named request.now) ≡ Some writer }
        requires bound { IfOk writer (IsBoundTo self.old.table.columns) }
        ensures answered { Answered self.old self.new request.now result }
        ensures size { IfOk result (λ reply. length reply < 2 ^ 32) }
    {
        let rows = rows_named(request);
        match answer_rows(alloc, &mut self.table, ASKER, &writer, request.offset, rows) {
            Ok(response) => {
                self.writer = writer;
                encoded(alloc, &response)
            }
            Err(NoResponse::Lost) => {
                self.writer = writer;
                Err(NoResponse::Lost)
            }
            Err(NoResponse::Undone) => Err(NoResponse::Undone),
        }
    }

    /// Answers a request that names no writer schema.
    fn answer_as_before(
        &mut self,
        alloc: Global,
        request: &AppendRowsRequest,
    ) -> Result<Blob, NoResponse>
        requires small { IsWithin 4294967295 request.now }
        requires unnamed { schema_named request.now ≡ None }
        ensures answered { Answered self.old self.new request.now result }
        ensures size { IfOk result (λ reply. length reply < 2 ^ 32) }
    {
        let rows = rows_named(request);
        let offset = request.offset;
        let told = answer_rows(alloc, &mut self.table, ASKER, &self.writer, offset, rows);
        replied(alloc, told)
    }

    /// Answers a request whose rows and descriptor have fewer than 2^32 bytes.
    fn answer_request(
        &mut self,
        alloc: Global,
        request: &AppendRowsRequest,
    ) -> Result<Blob, NoResponse>
        requires small { IsWithin 4294967295 request.now }
        ensures answered { Answered self.old self.new request.now result }
        ensures size { IfOk result (λ reply. length reply < 2 ^ 32) }
    {
        match self.new_writer(alloc, request)? {
            Some(writer) => self.answer_by(alloc, request, writer),
            None => self.answer_as_before(alloc, request),
        }
    }
}

/// The bytes of a response; where memory is wanting, it is lost.
fn encoded(alloc: Global, response: &AppendRowsResponse) -> Result<Blob, NoResponse>
    ensures { Encoded response.now result }
{
    match response.encode(alloc) {
        Ok(reply) => Ok(reply),
        Err(Memory) => Err(NoResponse::Lost),
    }
}

/// The bytes of a response that may be wanting.
fn replied(alloc: Global, told: Result<AppendRowsResponse, NoResponse>) -> Result<Blob, NoResponse>
    ensures { Replied told result }
{
    match told {
        Ok(response) => encoded(alloc, &response),
        Err(cause) => Err(cause),
    }
}

impl Answers for TypedTable {
    ghost readable = { is_decodable };

    ghost answers = { AnswersFromTyped };

    fn answer(&mut self, alloc: Global, message: &[u8]) -> Answer {
        let request = match AppendRowsRequest::decode(alloc, message) {
            Ok(request) => request,
            Err(MsgFault::Memory) => return Answer::Memory,
            Err(_) => return Answer::Unreadable,
        };
        match self.answer_request(alloc, &request) {
            Ok(reply) => Answer::Reply(reply),
            Err(_) => Answer::Memory,
        }
    }
}
