//! GetWriteStream.

ghost use Rattle.std.specs.Prelude.{◌≡◌, ◌<◌, ◌^◌, ◌≤ℤ◌, length, slice_get, Some, IfOk, OnErr};
ghost use Rattle.resource_names.specs.Write.{write_name_of};
ghost use Rattle.table_model.specs.declared.limits.TheConstants.{LATEST_READING};
ghost use Rattle.open_tables.specs.Tables.{AreTheirs, specs_of};
ghost use Rattle.open_tables.specs.Plans.{At, Gets, Loses};
ghost use Rattle.call_plans.specs.Getting.{is_full, schema_in, told_found, get_turn, get_on, get_plan};

use crate::answers::{refusal_answer, refused_for, responded};
use crate::columns::schema_of;
use crate::described::described;
use call_names::{find, name_of, ref_of, unreadable};
use column_types::Column;
use conn_requests::Answer;
use open_tables::{Passes, Tables};
use outside::{Blob, Memory};
use resource_names::WriteName;
use schema_msgs::TableSchema;
use std::alloc::Global;
use std::sync::Wait;
use table_model::{Command, Reply, Why};
use table_spec::TableSpec;
use write_msgs::GetWriteStreamRequest;

/// The view that has the table's schema.
const FULL_VIEW: i32 = 2;

/// A write stream that is asked for, and its table.
#[derive(Drop)]
struct Asked<'a> {
    name: &'a WriteName,
    view: i32,
    table: &'a TableSpec,
}

fn is_full(view: i32) -> bool
    ensures { result ≡ is_full view }
{
    view == FULL_VIEW
}

fn schema_in(alloc: Global, view: i32, columns: &[Column]) -> Result<Option<TableSchema>, Memory>
    ensures { IfOk result (λ schema. schema ≡ schema_in view columns.now) }
{
    if is_full(view) {
        Ok(Some(schema_of(alloc, columns)?))
    } else {
        Ok(None)
    }
}

fn told_found(alloc: Global, asked: &Asked<'_>, reply: &Reply) -> Result<Answer, Memory>
    ensures { IfOk result (λ answer. answer ≡ told_found asked.now.name.now asked.now.view asked.now.table.now.schema reply.now) }
{
    match reply {
        Reply::Stream {
            kind,
            created,
            committed,
        } => {
            let schema = schema_in(alloc, asked.view, asked.table.schema.columns())?;
            let (table, id) = (&asked.name.table, asked.name.stream);
            let stream = described(alloc, table, id, *kind, *created, *committed, schema)?;
            responded(alloc, stream.encode(alloc)?)
        }
        Reply::Refused(refusal) => refusal_answer(alloc, refusal),
        _ => responded(alloc, Blob::of(alloc, &[])?),
    }
}

fn get_at<R: Wait>(
    tables: &Tables,
    rt: &R,
    alloc: Global,
    place: u32,
    passes: Passes,
    asked: &Asked<'_>,
    now: i64,
) -> (Passes, Result<Answer, Memory>)
    requires place { place < length tables.now }
    requires table { slice_get (specs_of tables.now) place ≡ Some asked.now.table.now }
    requires theirs { AreTheirs tables.now passes }
    requires in_time { now ≤ℤ LATEST_READING }
    ensures theirs { AreTheirs tables.now result.0 }
    ensures gets { IfOk result.1 (λ answer. Gets passes (At place (get_turn asked.now.name.now asked.now.view asked.now.table.now.schema)) now answer result.0) }
    ensures loses { OnErr result.1 (Loses passes (At place (get_turn asked.now.name.now asked.now.view asked.now.table.now.schema)) now result.0) }
{
    let command = Command::Get {
        stream: ref_of(asked.name.stream),
    };
    let (passes, reply) = tables.act::<R, Answer>(rt, alloc, place, passes, command, now);
    match reply {
        Ok(reply) => (passes, told_found(alloc, asked, &reply)),
        Err(memory) => (passes, Err(memory)),
    }
}

#[tactic(auto, using(call_names::proofs::LossLemmas::untouched))]
fn get_named<R: Wait>(
    tables: &Tables,
    rt: &R,
    alloc: Global,
    passes: Passes,
    request: &GetWriteStreamRequest,
    name: &WriteName,
    now: i64,
) -> (Passes, Result<Answer, Memory>)
    requires theirs { AreTheirs tables.now passes }
    requires in_time { now ≤ℤ LATEST_READING }
    ensures theirs { AreTheirs tables.now result.0 }
    ensures gets { IfOk result.1 (λ answer. Gets passes (get_on (specs_of tables.now) request.now (Some name.now)) now answer result.0) }
    ensures loses { OnErr result.1 (Loses passes (get_on (specs_of tables.now) request.now (Some name.now)) now result.0) }
{
    match find(alloc, tables, &name.table) {
        Ok(Some(place)) => {
            let table = tables.spec(place);
            let view = request.view;
            let asked = Asked { name, view, table };
            get_at(tables, rt, alloc, place, passes, &asked, now)
        }
        Ok(None) => (passes, refused_for(alloc, Why::NoTable)),
        Err(memory) => (passes, Err(memory)),
    }
}

#[tactic(auto, using(call_names::proofs::LossLemmas::untouched))]
fn get_asked<R: Wait>(
    tables: &Tables,
    rt: &R,
    alloc: Global,
    passes: Passes,
    request: &GetWriteStreamRequest,
    now: i64,
) -> (Passes, Result<Answer, Memory>)
    requires theirs { AreTheirs tables.now passes }
    requires in_time { now ≤ℤ LATEST_READING }
    ensures theirs { AreTheirs tables.now result.0 }
    ensures gets { IfOk result.1 (λ answer. Gets passes (get_on (specs_of tables.now) request.now (write_name_of request.now.name)) now answer result.0) }
    ensures loses { OnErr result.1 (Loses passes (get_on (specs_of tables.now) request.now (write_name_of request.now.name)) now result.0) }
{
    match name_of(alloc, request.name.text()) {
        Ok(Some(name)) => get_named(tables, rt, alloc, passes, request, &name, now),
        Ok(None) => (passes, refused_for(alloc, Why::BadName)),
        Err(memory) => (passes, Err(memory)),
    }
}

/// Answers GetWriteStream by its plan, which takes a turn at the table that the message names. `now` is a reading of the
/// clock, in microseconds since 1970-01-01. No entry is added.
///
/// At want of memory the answer is lost.
#[tactic(auto, using(call_names::proofs::LossLemmas::untouched), unfolding(call_plans::specs::Getting::get_plan))]
pub fn get<R: Wait>(
    tables: &Tables,
    rt: &R,
    alloc: Global,
    passes: Passes,
    message: &[u8],
    now: i64,
) -> (Passes, Result<Answer, Memory>)
    requires small { length message.now < 2 ^ 32 }
    requires theirs { AreTheirs tables.now passes }
    requires in_time { now ≤ℤ LATEST_READING }
    ensures theirs { AreTheirs tables.now result.0 }
    ensures gets { IfOk result.1 (λ answer. Gets passes (get_plan (specs_of tables.now) message.now) now answer result.0) }
    ensures loses { OnErr result.1 (Loses passes (get_plan (specs_of tables.now) message.now) now result.0) }
{
    match GetWriteStreamRequest::decode(alloc, message) {
        Ok(request) => get_asked(tables, rt, alloc, passes, &request, now),
        Err(fault) => (passes, unreadable(alloc, fault)),
    }
}
