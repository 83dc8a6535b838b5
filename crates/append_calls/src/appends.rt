//! What a message asks of its table, in one turn there.

ghost use Rattle.std.specs.Prelude.{◌≡◌, IfOk, OnErr};
ghost use Rattle.row_descriptor.specs.Binding.{IsBoundTo};
ghost use Rattle.open_tables.specs.Tables.{AreTheirs, specs_of, TakesAt};
ghost use Rattle.open_tables.specs.Plans.{Gets, Loses};
ghost use Rattle.call_append.specs.Asking.{asked_by, to_append, without_rows};
ghost use Rattle.call_append.specs.Response.{told, told_without_rows};
ghost use Rattle.call_append.specs.Writer.{rows_named};
ghost use Rattle.call_plans.specs.Appending.{response_to};
ghost use Rattle.append_calls.specs.Appends.{IsAppend, asking};

use crate::answers::response_to;
use crate::requests::rows_named;
use call_append::{Writer, prepare, told, told_without_rows};
use conn_requests::Answer;
use open_tables::{Passes, Tables};
use outside::Memory;
use row_decode::{RowFault, RowsFault};
use std::alloc::Global;
use std::sync::Wait;
use table_model::{Command, Reply, StreamRef, Why};
use table_spec::TableSpec;
use write_msgs::AppendRowsRequest;

/// An append that a message asks: the table at a place, one of its write streams, and when.
#[derive(Drop)]
pub(crate) struct Append<'t, 'r> {
    pub tables: &'t Tables,
    pub place: u32,
    pub spec: &'t TableSpec,
    pub stream: StreamRef,
    pub request: &'r AppendRowsRequest,
    /// A reading of the clock, in microseconds since 1970-01-01.
    pub moment: i64,
}

impl<'t, 'r> Append<'t, 'r> {
    /// The response to what the table told of the rows.
    fn told(&self, alloc: Global, reply: &Reply) -> Result<Answer, Memory>
        ensures { IfOk result (λ answer. answer ≡ response_to self.now.request.now (told self.now.spec.now.schema reply.now)) }
    {
        let response = told(alloc, self.spec.schema.columns(), reply)?;
        response_to(alloc, self.request, response)
    }

    /// The response to rows that can't be appended for this cause, with these rows at fault, where the table told this of
    /// the write stream.
    fn told_without_rows(
        &self,
        alloc: Global,
        cause: &Why,
        faults: &[RowFault],
        reply: &Reply,
    ) -> Result<Answer, Memory>
        ensures { IfOk result (λ answer. answer ≡ response_to self.now.request.now (told_without_rows self.now.spec.now.schema cause.now faults.now reply.now)) }
    {
        let columns = self.spec.schema.columns();
        let response = told_without_rows(alloc, columns, cause, faults, reply)?;
        response_to(alloc, self.request, response)
    }

    /// Appends by a prepared command.
    fn enter<R: Wait>(
        &self,
        rt: &R,
        alloc: Global,
        passes: Passes,
        command: Command,
    ) -> (Passes, Result<Answer, Memory>)
        requires is { IsAppend self.now }
        requires theirs { AreTheirs self.now.tables.now passes }
        requires taken { TakesAt (specs_of self.now.tables.now) self.now.place command }
        ensures theirs { AreTheirs self.now.tables.now result.0 }
        ensures gets { IfOk result.1 (λ answer. Gets passes (asking self.now (to_append command)) self.now.moment answer result.0) }
        ensures loses { OnErr result.1 (Loses passes (asking self.now (to_append command)) self.now.moment result.0) }
    {
        let (place, now) = (self.place, self.moment);
        let tables = self.tables;
        let (passes, reply) = tables.act::<R, Answer>(rt, alloc, place, passes, command, now);
        match reply {
            Ok(reply) => (passes, self.told(alloc, &reply)),
            Err(memory) => (passes, Err(memory)),
        }
    }

    /// Refuses the rows for this cause, with these rows at fault, unless the write stream isn't there.
    fn refuse<R: Wait>(
        &self,
        rt: &R,
        alloc: Global,
        passes: Passes,
        cause: &Why,
        faults: &[RowFault],
    ) -> (Passes, Result<Answer, Memory>)
        requires is { IsAppend self.now }
        requires theirs { AreTheirs self.now.tables.now passes }
        ensures theirs { AreTheirs self.now.tables.now result.0 }
        ensures gets { IfOk result.1 (λ answer. Gets passes (asking self.now (without_rows self.now.stream cause.now faults.now)) self.now.moment answer result.0) }
        ensures loses { OnErr result.1 (Loses passes (asking self.now (without_rows self.now.stream cause.now faults.now)) self.now.moment result.0) }
    {
        let get = Command::Get {
            stream: self.stream,
        };
        let (place, now) = (self.place, self.moment);
        let tables = self.tables;
        let (passes, reply) = tables.act::<R, Answer>(rt, alloc, place, passes, get, now);
        match reply {
            Ok(reply) => (passes, self.told_without_rows(alloc, cause, faults, &reply)),
            Err(memory) => (passes, Err(memory)),
        }
    }

    /// Appends the rows of the message, read by this writer. Where a row is refused, or none can be read, no entry is
    /// added.
    pub(crate) fn rows<R: Wait>(
        &self,
        rt: &R,
        alloc: Global,
        passes: Passes,
        writer: &Writer,
    ) -> (Passes, Result<Answer, Memory>)
        requires is { IsAppend self.now }
        requires theirs { AreTheirs self.now.tables.now passes }
        requires bound { IfOk writer.now (IsBoundTo self.now.spec.now.schema) }
        ensures theirs { AreTheirs self.now.tables.now result.0 }
        ensures gets { IfOk result.1 (λ answer. Gets passes (asking self.now (asked_by self.now.stream writer.now self.now.request.now.offset (rows_named self.now.request.now))) self.now.moment answer result.0) }
        ensures loses { OnErr result.1 (Loses passes (asking self.now (asked_by self.now.stream writer.now self.now.request.now.offset (rows_named self.now.request.now))) self.now.moment result.0) }
    {
        let binding = match writer {
            Ok(binding) => binding,
            Err(cause) => return self.refuse(rt, alloc, passes, cause, &[]),
        };
        let request = self.request;
        match prepare(
            alloc,
            self.stream,
            binding,
            request.offset,
            rows_named(request),
        ) {
            Ok(command) => self.enter(rt, alloc, passes, command),
            Err(RowsFault::Refused(faults)) => {
                self.refuse(rt, alloc, passes, &Why::BadRows, faults.faults())
            }
            Err(RowsFault::Memory) => (passes, Err(Memory)),
        }
    }
}
