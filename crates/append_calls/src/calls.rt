//! A call that goes on.

ghost use Rattle.std.specs.Prelude.{◌≡◌, ◌==◌, ◌<◌, ◌^◌, ◌≤ℤ◌, ◌⊎◌, true, length, Some, None, Ok, IfOk, IfSome, OnOk, OnErr, if◌then◌else◌};
ghost use Rattle.resource_names.specs.Write.{write_name_of};
ghost use Rattle.table_model.specs.declared.limits.TheConstants.{LATEST_READING};
ghost use Rattle.open_tables.specs.Tables.{AreTheirs, specs_of};
ghost use Rattle.open_tables.specs.Plans.{Gets, Loses};
ghost use Rattle.call_append.specs.Sizes.{IsRowsWithin, IsWithin};
ghost use Rattle.call_append.specs.Writer.{rows_named, schema_named};
ghost use Rattle.conn_requests.specs.Names.{naming, named_with, nothing_named};
ghost use Rattle.call_plans.specs.Appending.{append_by, append_on, append_plan};
ghost use Rattle.append_calls.specs.Appends.{IsAppend, asked_in, asking};
ghost use Rattle.append_calls.specs.Bound.{IsFor};

use crate::answers::refused_to;
use crate::appends::Append;
use crate::bound::{Bound, are_same, bind};
use crate::requests::schema_named;
use call_names::{find, name_of, ref_of, unreadable};
use conn_requests::Answer;
use open_tables::{Passes, Tables};
use outside::{Blob, Memory, Text};
use resource_names::WriteName;
use std::alloc::Global;
use std::marker::Model;
use std::sync::Wait;
use table_model::Why;
use table_spec::TableSpec;
use write_msgs::AppendRowsRequest;

/// An AppendRows call that goes on: the write stream and the writer schema that its messages named last, also where a
/// message was refused. Contracts see these.
///
/// Beside them it keeps the writer schema bound to the columns of the table that it last appended to.
#[derive(Drop)]
pub struct AppendCall {
    stream: Text,
    schema: Option<Blob>,
    bound: Option<Bound>,
}

impl Model for AppendCall {
    ghost use Rattle.conn_requests.specs.Names.{Named};

    ghost Value = { Named };

    ghost use Rattle.append_calls.specs.Bound.{IsKept};

    ghost view = { λ c. record { stream = c.stream; schema = c.schema } };

    ghost invariant = { λ c. IsKept c.schema c.bound };
}

impl AppendCall {
    /// A call before its first message.
    pub fn new(alloc: Global) -> AppendCall
        ensures { result ≡ nothing_named }
    {
        AppendCall {
            stream: Text::from_string(String::new(alloc)),
            schema: None,
            bound: None,
        }
    }

    /// A copy of the name of a write stream, unless the name is empty.
    fn named_stream(alloc: Global, name: &Text) -> Result<Option<Text>, Memory>
        ensures { IfOk result (λ named. named ≡ (if length name.now == 0 then None else Some name.now)) }
    {
        if name.text().is_empty() {
            return Ok(None);
        }
        Ok(Some(Text::of(alloc, name.text())?))
    }

    /// Whether the writer schema that was named last has this descriptor.
    fn has_schema(&self, descriptor: &[u8]) -> bool
        ensures { result ≡ true → self.now.schema ≡ Some descriptor.now }
    {
        match &self.schema {
            Some(kept) => kept.bytes() == descriptor,
            None => false,
        }
    }

    /// Remembers the writer schema with this descriptor. What was bound of another is dropped.
    fn name_schema(&mut self, alloc: Global, descriptor: &[u8]) -> Result<(), Memory>
        requires { length descriptor.now < 2 ^ 32 }
        ensures named { OnOk result (self.new ≡ record self.old { schema = Some descriptor.now }) }
        ensures kept { OnErr result (self.new ≡ self.old) }
    {
        if !self.has_schema(descriptor) {
            self.schema = Some(Blob::of(alloc, descriptor)?);
            self.bound = None;
        }
        Ok(())
    }

    /// Remembers what a message names. At want of memory nothing is remembered.
    fn remember(&mut self, alloc: Global, request: &AppendRowsRequest) -> Result<(), Memory>
        requires { IfSome (schema_named request.now) (λ descriptor. length descriptor < 2 ^ 32) }
        ensures named { OnOk result (self.new ≡ naming self.old request.now) }
        ensures kept { OnErr result (self.new ≡ self.old) }
    {
        let stream = AppendCall::named_stream(alloc, &request.write_stream)?;
        if let Some(descriptor) = schema_named(request) {
            self.name_schema(alloc, descriptor)?;
        }
        if let Some(stream) = stream {
            self.stream = stream;
        }
        Ok(())
    }

    /// The writer schema, bound to the columns of this table. What was kept is moved out.
    fn take_bound(&mut self, alloc: Global, spec: &TableSpec) -> Result<Bound, Memory>
        ensures same { self.new ≡ self.old }
        ensures bound { IfOk result (IsFor spec.now.schema self.old.schema) }
    {
        if let Some(bound) = self.bound.take() {
            if are_same(bound.columns.columns(), spec.schema.columns()) {
                return Ok(bound);
            }
        }
        bind(alloc, spec, &self.schema)
    }

    /// Keeps the writer schema bound.
    fn keep(&mut self, bound: Bound)
        requires { IsFor bound.columns self.old.schema bound }
        ensures { self.new ≡ self.old }
    {
        self.bound = Some(bound);
    }

    /// Appends the rows of a message, whose names are remembered.
    fn append_at<R: Wait>(
        &mut self,
        rt: &R,
        alloc: Global,
        passes: Passes,
        append: &Append<'_, '_>,
    ) -> (Passes, Result<Answer, Memory>)
        requires is { IsAppend append.now }
        requires theirs { AreTheirs append.now.tables.now passes }
        ensures same { self.new ≡ self.old }
        ensures theirs { AreTheirs append.now.tables.now result.0 }
        ensures gets { IfOk result.1 (λ answer. Gets passes (asking append.now (asked_in append.now self.old)) append.now.moment answer result.0) }
        ensures loses { OnErr result.1 (Loses passes (asking append.now (asked_in append.now self.old)) append.now.moment result.0) }
    {
        match self.take_bound(alloc, append.spec) {
            Ok(bound) => {
                let answered = append.rows(rt, alloc, passes, &bound.writer);
                self.keep(bound);
                answered
            }
            Err(memory) => (passes, Err(memory)),
        }
    }

    /// Answers a message, whose names are remembered, where its write stream has this name.
    #[tactic(auto, using(call_names::proofs::LossLemmas::untouched))]
    fn append_named<R: Wait>(
        &mut self,
        tables: &Tables,
        rt: &R,
        alloc: Global,
        passes: Passes,
        request: &AppendRowsRequest,
        name: &WriteName,
        now: i64,
    ) -> (Passes, Result<Answer, Memory>)
        requires theirs { AreTheirs tables.now passes }
        requires in_time { now ≤ℤ LATEST_READING }
        requires small { IsRowsWithin 4294967295 (rows_named request.now) }
        ensures same { self.new ≡ self.old }
        ensures theirs { AreTheirs tables.now result.0 }
        ensures gets { IfOk result.1 (λ answer. Gets passes (append_on (specs_of tables.now) self.old request.now (Some name.now)) now answer result.0) }
        ensures loses { OnErr result.1 (Loses passes (append_on (specs_of tables.now) self.old request.now (Some name.now)) now result.0) }
    {
        match find(alloc, tables, &name.table) {
            Ok(Some(place)) => {
                let append = Append {
                    tables,
                    place,
                    spec: tables.spec(place),
                    stream: ref_of(name.stream),
                    request,
                    moment: now,
                };
                self.append_at(rt, alloc, passes, &append)
            }
            Ok(None) => (passes, refused_to(alloc, request, Why::NoTable)),
            Err(memory) => (passes, Err(memory)),
        }
    }

    /// Answers a message, whose names are remembered.
    #[tactic(auto, using(call_names::proofs::LossLemmas::untouched))]
    fn append<R: Wait>(
        &mut self,
        tables: &Tables,
        rt: &R,
        alloc: Global,
        passes: Passes,
        request: &AppendRowsRequest,
        now: i64,
    ) -> (Passes, Result<Answer, Memory>)
        requires theirs { AreTheirs tables.now passes }
        requires in_time { now ≤ℤ LATEST_READING }
        requires small { IsRowsWithin 4294967295 (rows_named request.now) }
        ensures same { self.new ≡ self.old }
        ensures theirs { AreTheirs tables.now result.0 }
        ensures gets { IfOk result.1 (λ answer. Gets passes (append_on (specs_of tables.now) self.old request.now (write_name_of self.old.stream)) now answer result.0) }
        ensures loses { OnErr result.1 (Loses passes (append_on (specs_of tables.now) self.old request.now (write_name_of self.old.stream)) now result.0) }
    {
        match name_of(alloc, self.stream.text()) {
            Ok(Some(name)) => self.append_named(tables, rt, alloc, passes, request, &name, now),
            Ok(None) => (passes, refused_to(alloc, request, Why::BadName)),
            Err(memory) => (passes, Err(memory)),
        }
    }

    /// Remembers what a message names, and answers it.
    #[tactic(auto, using(call_names::proofs::LossLemmas::untouched))]
    fn answer<R: Wait>(
        &mut self,
        tables: &Tables,
        rt: &R,
        alloc: Global,
        passes: Passes,
        request: &AppendRowsRequest,
        now: i64,
    ) -> (Passes, Result<Answer, Memory>)
        requires theirs { AreTheirs tables.now passes }
        requires in_time { now ≤ℤ LATEST_READING }
        requires small { IsWithin 4294967295 request.now }
        ensures named { IfOk result.1 (λ answer. self.new ≡ naming self.old request.now) }
        ensures lost { OnErr result.1 ((self.new ≡ self.old) ⊎ (self.new ≡ naming self.old request.now)) }
        ensures theirs { AreTheirs tables.now result.0 }
        ensures gets { IfOk result.1 (λ answer. Gets passes (append_by (specs_of tables.now) (naming self.old request.now) (Ok request.now)) now answer result.0) }
        ensures loses { OnErr result.1 (Loses passes (append_by (specs_of tables.now) (naming self.old request.now) (Ok request.now)) now result.0) }
    {
        match self.remember(alloc, request) {
            Ok(()) => self.append(tables, rt, alloc, passes, request, now),
            Err(memory) => (passes, Err(memory)),
        }
    }

    /// Answers a message of fewer than 2^32 bytes by its plan, with what the call has named, the message included; that
    /// is remembered. `now` is a reading of the clock, in microseconds since 1970-01-01.
    ///
    /// A message that can't be read names nothing, and its answer ends the call: INVALID_ARGUMENT, or UNIMPLEMENTED
    /// where it has a field that isn't served. Any other has one response. It is refused, in this order, where no write
    /// stream was named or its name is none, where no table has that name, where the write stream isn't there, where no
    /// writer schema was named or it can't be bound to the columns, where a row can't be read, and as the table answers.
    ///
    /// At want of memory the answer is lost: nothing was entered, or all but the answer was done. What the message names is
    /// remembered then, or nothing of it.
    #[tactic(auto, using(call_names::proofs::LossLemmas::untouched), unfolding(call_plans::specs::Appending::append_plan, conn_requests::specs::Names::named_with))]
    pub fn message<R: Wait>(
        &mut self,
        tables: &Tables,
        rt: &R,
        alloc: Global,
        passes: Passes,
        message: &[u8],
        now: i64,
    ) -> (Passes, Result<Answer, Memory>)
        requires small { length message.now < 2 ^ 32 }
        requires theirs { AreTheirs tables.now passes }
        requires in_time { now ≤ℤ LATEST_READING }
        ensures named { IfOk result.1 (λ answer. self.new ≡ named_with self.old message.now) }
        ensures lost { OnErr result.1 ((self.new ≡ self.old) ⊎ (self.new ≡ named_with self.old message.now)) }
        ensures theirs { AreTheirs tables.now result.0 }
        ensures gets { IfOk result.1 (λ answer. Gets passes (append_plan (specs_of tables.now) (named_with self.old message.now) message.now) now answer result.0) }
        ensures loses { OnErr result.1 (Loses passes (append_plan (specs_of tables.now) (named_with self.old message.now) message.now) now result.0) }
    {
        match AppendRowsRequest::decode(alloc, message) {
            Ok(request) => self.answer(tables, rt, alloc, passes, &request, now),
            Err(fault) => (passes, unreadable(alloc, fault)),
        }
    }
}
