//! CreateWriteStream.

ghost use Rattle.std.specs.Prelude.{◌≡◌, ◌<◌, ◌^◌, ◌≤ℤ◌, length, slice_get, Some, IfOk, OnErr};
ghost use Rattle.resource_names.specs.Table.{table_name_of};
ghost use Rattle.table_model.specs.declared.limits.TheConstants.{LATEST_READING};
ghost use Rattle.open_tables.specs.Tables.{AreTheirs, specs_of};
ghost use Rattle.open_tables.specs.Plans.{At, Gets, Loses, on_command};
ghost use Rattle.table_model.specs.declared.commands.Command.TheVariants as command;
ghost use Rattle.call_plans.specs.Creating.{told_created, kind_in, create_on, create_plan};

use crate::answers::{refusal_answer, refused_for, responded};
use crate::columns::schema_of;
use crate::described::{described, kind_coded};
use call_names::{find, table_of, unreadable};
use conn_requests::Answer;
use open_tables::{Passes, Tables};
use outside::{Blob, Memory};
use resource_names::{StreamId, TableName};
use schema_msgs::CreateWriteStreamRequest;
use std::alloc::Global;
use std::sync::Wait;
use table_model::{Command, Reply, StreamKind, Why};
use table_spec::TableSpec;

/// A write stream that is to be made: its type, and its table.
#[derive(Drop)]
struct Wanted<'a> {
    kind: StreamKind,
    name: &'a TableName,
    table: &'a TableSpec,
}

/// The type that is asked for.
fn kind_in(request: &CreateWriteStreamRequest) -> Option<StreamKind>
    ensures { result ≡ kind_in request.now }
{
    match &request.write_stream {
        Some(stream) => kind_coded(stream.stream_type),
        None => None,
    }
}

fn told_created(alloc: Global, wanted: &Wanted<'_>, reply: &Reply) -> Result<Answer, Memory>
    ensures { IfOk result (λ answer. answer ≡ told_created wanted.now.name.now wanted.now.table.now.schema wanted.now.kind reply.now) }
{
    match reply {
        Reply::Created { stream, moment } => {
            let schema = Some(schema_of(alloc, wanted.table.schema.columns())?);
            let (id, created) = (StreamId::Number(*stream), Some(*moment));
            let stream = described(alloc, wanted.name, id, wanted.kind, created, None, schema)?;
            responded(alloc, stream.encode(alloc)?)
        }
        Reply::Refused(refusal) => refusal_answer(alloc, refusal),
        _ => responded(alloc, Blob::of(alloc, &[])?),
    }
}

fn create_at<R: Wait>(
    tables: &Tables,
    rt: &R,
    alloc: Global,
    place: u32,
    passes: Passes,
    wanted: &Wanted<'_>,
    now: i64,
) -> (Passes, Result<Answer, Memory>)
    requires place { place < length tables.now }
    requires table { slice_get (specs_of tables.now) place ≡ Some wanted.now.table.now }
    requires theirs { AreTheirs tables.now passes }
    requires in_time { now ≤ℤ LATEST_READING }
    ensures theirs { AreTheirs tables.now result.0 }
    ensures gets { IfOk result.1 (λ answer. Gets passes (At place (on_command wanted.now.table.now.schema (command.Create wanted.now.kind) (told_created wanted.now.name.now wanted.now.table.now.schema wanted.now.kind))) now answer result.0) }
    ensures loses { OnErr result.1 (Loses passes (At place (on_command wanted.now.table.now.schema (command.Create wanted.now.kind) (told_created wanted.now.name.now wanted.now.table.now.schema wanted.now.kind))) now result.0) }
{
    let command = Command::Create { kind: wanted.kind };
    let (passes, reply) = tables.act::<R, Answer>(rt, alloc, place, passes, command, now);
    match reply {
        Ok(reply) => (passes, told_created(alloc, wanted, &reply)),
        Err(memory) => (passes, Err(memory)),
    }
}

#[tactic(auto, using(call_names::proofs::LossLemmas::untouched))]
fn create_named<R: Wait>(
    tables: &Tables,
    rt: &R,
    alloc: Global,
    passes: Passes,
    request: &CreateWriteStreamRequest,
    name: &TableName,
    now: i64,
) -> (Passes, Result<Answer, Memory>)
    requires theirs { AreTheirs tables.now passes }
    requires in_time { now ≤ℤ LATEST_READING }
    ensures theirs { AreTheirs tables.now result.0 }
    ensures gets { IfOk result.1 (λ answer. Gets passes (create_on (specs_of tables.now) request.now (Some name.now)) now answer result.0) }
    ensures loses { OnErr result.1 (Loses passes (create_on (specs_of tables.now) request.now (Some name.now)) now result.0) }
{
    match find(alloc, tables, name) {
        Ok(Some(place)) => {
            let table = tables.spec(place);
            let Some(kind) = kind_in(request) else {
                return (passes, refused_for(alloc, Why::BadKind));
            };
            let wanted = Wanted { kind, name, table };
            create_at(tables, rt, alloc, place, passes, &wanted, now)
        }
        Ok(None) => (passes, refused_for(alloc, Why::NoTable)),
        Err(memory) => (passes, Err(memory)),
    }
}

#[tactic(auto, using(call_names::proofs::LossLemmas::untouched))]
fn create_asked<R: Wait>(
    tables: &Tables,
    rt: &R,
    alloc: Global,
    passes: Passes,
    request: &CreateWriteStreamRequest,
    now: i64,
) -> (Passes, Result<Answer, Memory>)
    requires theirs { AreTheirs tables.now passes }
    requires in_time { now ≤ℤ LATEST_READING }
    ensures theirs { AreTheirs tables.now result.0 }
    ensures gets { IfOk result.1 (λ answer. Gets passes (create_on (specs_of tables.now) request.now (table_name_of request.now.parent)) now answer result.0) }
    ensures loses { OnErr result.1 (Loses passes (create_on (specs_of tables.now) request.now (table_name_of request.now.parent)) now result.0) }
{
    match table_of(alloc, request.parent.text()) {
        Ok(Some(name)) => create_named(tables, rt, alloc, passes, request, &name, now),
        Ok(None) => (passes, refused_for(alloc, Why::BadName)),
        Err(memory) => (passes, Err(memory)),
    }
}

/// Answers CreateWriteStream by its plan, which takes a turn at the table that the message names. `now` is a reading of the
/// clock, in microseconds since 1970-01-01.
///
/// At want of memory the answer is lost: nothing was entered, or all but the answer was done.
#[tactic(auto, using(call_names::proofs::LossLemmas::untouched), unfolding(call_plans::specs::Creating::create_plan))]
pub fn create<R: Wait>(
    tables: &Tables,
    rt: &R,
    alloc: Global,
    passes: Passes,
    message: &[u8],
    now: i64,
) -> (Passes, Result<Answer, Memory>)
    requires small { length message.now < 2 ^ 32 }
    requires theirs { AreTheirs tables.now passes }
    requires in_time { now ≤ℤ LATEST_READING }
    ensures theirs { AreTheirs tables.now result.0 }
    ensures gets { IfOk result.1 (λ answer. Gets passes (create_plan (specs_of tables.now) message.now) now answer result.0) }
    ensures loses { OnErr result.1 (Loses passes (create_plan (specs_of tables.now) message.now) now result.0) }
{
    match CreateWriteStreamRequest::decode(alloc, message) {
        Ok(request) => create_asked(tables, rt, alloc, passes, &request, now),
        Err(fault) => (passes, unreadable(alloc, fault)),
    }
}
