//! FlushRows.

ghost use Rattle.std.specs.Prelude.{◌≡◌, ◌<◌, ◌^◌, ◌≤ℤ◌, length, slice_get, Some, IfOk, OnErr};
ghost use Rattle.resource_names.specs.Write.{write_name_of};
ghost use Rattle.table_model.specs.declared.limits.TheConstants.{LATEST_READING};
ghost use Rattle.open_tables.specs.Tables.{AreTheirs, specs_of};
ghost use Rattle.open_tables.specs.Plans.{At, Gets, Loses};
ghost use Rattle.call_plans.specs.Flushing.{told_flushed, flush_turn, flush_on, flush_plan};

use crate::answers::{refusal_answer, refused_for, responded};
use call_names::{find, name_of, ref_of, unreadable};
use conn_requests::Answer;
use open_tables::{Passes, Tables};
use outside::{Blob, Memory};
use resource_names::WriteName;
use std::alloc::Global;
use std::sync::Wait;
use table_model::{Command, Reply, Why};
use table_spec::TableSpec;
use write_msgs::{FlushRowsRequest, FlushRowsResponse};

/// A flush that is asked for, and the table.
#[derive(Drop)]
struct Asked<'a> {
    name: &'a WriteName,
    offset: Option<i64>,
    table: &'a TableSpec,
}

fn told_flushed(alloc: Global, reply: &Reply) -> Result<Answer, Memory>
    ensures { IfOk result (λ answer. answer ≡ told_flushed reply.now) }
{
    match reply {
        Reply::Flushed { offset } => {
            let response = FlushRowsResponse {
                offset: offset.cast_signed(),
            };
            responded(alloc, response.encode(alloc)?)
        }
        Reply::Refused(refusal) => refusal_answer(alloc, refusal),
        _ => responded(alloc, Blob::of(alloc, &[])?),
    }
}

fn flush_at<R: Wait>(
    tables: &Tables,
    rt: &R,
    alloc: Global,
    place: u32,
    passes: Passes,
    asked: &Asked<'_>,
    now: i64,
) -> (Passes, Result<Answer, Memory>)
    requires place { place < length tables.now }
    requires table { slice_get (specs_of tables.now) place ≡ Some asked.now.table.now }
    requires theirs { AreTheirs tables.now passes }
    requires in_time { now ≤ℤ LATEST_READING }
    ensures theirs { AreTheirs tables.now result.0 }
    ensures gets { IfOk result.1 (λ answer. Gets passes (At place (flush_turn asked.now.name.now.stream asked.now.offset asked.now.table.now.schema)) now answer result.0) }
    ensures loses { OnErr result.1 (Loses passes (At place (flush_turn asked.now.name.now.stream asked.now.offset asked.now.table.now.schema)) now result.0) }
{
    let command = Command::Flush {
        stream: ref_of(asked.name.stream),
        offset: asked.offset,
    };
    let (passes, reply) = tables.act::<R, Answer>(rt, alloc, place, passes, command, now);
    match reply {
        Ok(reply) => (passes, told_flushed(alloc, &reply)),
        Err(memory) => (passes, Err(memory)),
    }
}

#[tactic(auto, using(call_names::proofs::LossLemmas::untouched))]
fn flush_named<R: Wait>(
    tables: &Tables,
    rt: &R,
    alloc: Global,
    passes: Passes,
    request: &FlushRowsRequest,
    name: &WriteName,
    now: i64,
) -> (Passes, Result<Answer, Memory>)
    requires theirs { AreTheirs tables.now passes }
    requires in_time { now ≤ℤ LATEST_READING }
    ensures theirs { AreTheirs tables.now result.0 }
    ensures gets { IfOk result.1 (λ answer. Gets passes (flush_on (specs_of tables.now) request.now (Some name.now)) now answer result.0) }
    ensures loses { OnErr result.1 (Loses passes (flush_on (specs_of tables.now) request.now (Some name.now)) now result.0) }
{
    match find(alloc, tables, &name.table) {
        Ok(Some(place)) => {
            let table = tables.spec(place);
            let offset = request.offset;
            let asked = Asked {
                name,
                offset,
                table,
            };
            flush_at(tables, rt, alloc, place, passes, &asked, now)
        }
        Ok(None) => (passes, refused_for(alloc, Why::NoTable)),
        Err(memory) => (passes, Err(memory)),
    }
}

#[tactic(auto, using(call_names::proofs::LossLemmas::untouched))]
fn flush_asked<R: Wait>(
    tables: &Tables,
    rt: &R,
    alloc: Global,
    passes: Passes,
    request: &FlushRowsRequest,
    now: i64,
) -> (Passes, Result<Answer, Memory>)
    requires theirs { AreTheirs tables.now passes }
    requires in_time { now ≤ℤ LATEST_READING }
    ensures theirs { AreTheirs tables.now result.0 }
    ensures gets { IfOk result.1 (λ answer. Gets passes (flush_on (specs_of tables.now) request.now (write_name_of request.now.write_stream)) now answer result.0) }
    ensures loses { OnErr result.1 (Loses passes (flush_on (specs_of tables.now) request.now (write_name_of request.now.write_stream)) now result.0) }
{
    match name_of(alloc, request.write_stream.text()) {
        Ok(Some(name)) => flush_named(tables, rt, alloc, passes, request, &name, now),
        Ok(None) => (passes, refused_for(alloc, Why::BadName)),
        Err(memory) => (passes, Err(memory)),
    }
}

/// Answers FlushRows by its plan, which takes a turn at the table that the message names. `now` is a reading of the clock,
/// in microseconds since 1970-01-01.
///
/// At want of memory the answer is lost: nothing was entered, or all but the answer was done.
#[tactic(auto, using(call_names::proofs::LossLemmas::untouched), unfolding(call_plans::specs::Flushing::flush_plan))]
pub fn flush<R: Wait>(
    tables: &Tables,
    rt: &R,
    alloc: Global,
    passes: Passes,
    message: &[u8],
    now: i64,
) -> (Passes, Result<Answer, Memory>)
    requires small { length message.now < 2 ^ 32 }
    requires theirs { AreTheirs tables.now passes }
    requires in_time { now ≤ℤ LATEST_READING }
    ensures theirs { AreTheirs tables.now result.0 }
    ensures gets { IfOk result.1 (λ answer. Gets passes (flush_plan (specs_of tables.now) message.now) now answer result.0) }
    ensures loses { OnErr result.1 (Loses passes (flush_plan (specs_of tables.now) message.now) now result.0) }
{
    match FlushRowsRequest::decode(alloc, message) {
        Ok(request) => flush_asked(tables, rt, alloc, passes, &request, now),
        Err(fault) => (passes, unreadable(alloc, fault)),
    }
}
