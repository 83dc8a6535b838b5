//! FinalizeWriteStream.

ghost use Rattle.std.specs.Prelude.{◌≡◌, ◌<◌, ◌^◌, ◌≤ℤ◌, length, slice_get, Some, IfOk, OnErr};
ghost use Rattle.resource_names.specs.Write.{write_name_of};
ghost use Rattle.table_model.specs.declared.limits.TheConstants.{LATEST_READING};
ghost use Rattle.open_tables.specs.Tables.{AreTheirs, specs_of};
ghost use Rattle.open_tables.specs.Plans.{At, Gets, Loses};
ghost use Rattle.table_spec.specs.declared.spec.TableSpec.{TableSpec};
ghost use Rattle.call_plans.specs.Finalising.{told_finalised, finalise_turn, finalise_on, finalise_plan};

use crate::answers::{refusal_answer, refused_for, responded};
use call_names::{find, name_of, ref_of, unreadable};
use conn_requests::Answer;
use open_tables::{Passes, Tables};
use outside::{Blob, Memory};
use resource_names::{StreamId, WriteName};
use std::alloc::Global;
use std::sync::Wait;
use table_model::{Command, Reply, Why};
use write_msgs::{FinalizeWriteStreamRequest, FinalizeWriteStreamResponse};

fn told_finalised(alloc: Global, reply: &Reply) -> Result<Answer, Memory>
    ensures { IfOk result (λ answer. answer ≡ told_finalised reply.now) }
{
    match reply {
        Reply::Finalised { rows } => {
            let response = FinalizeWriteStreamResponse {
                row_count: rows.cast_signed(),
            };
            responded(alloc, response.encode(alloc)?)
        }
        Reply::Refused(refusal) => refusal_answer(alloc, refusal),
        _ => responded(alloc, Blob::of(alloc, &[])?),
    }
}

fn finalise_at<R: Wait>(
    tables: &Tables,
    rt: &R,
    alloc: Global,
    place: u32,
    passes: Passes,
    id: StreamId,
    now: i64,
) -> (Passes, Result<Answer, Memory>)
    requires place { place < length tables.now }
    requires theirs { AreTheirs tables.now passes }
    requires in_time { now ≤ℤ LATEST_READING }
    ensures theirs { AreTheirs tables.now result.0 }
    ensures gets { (spec : TableSpec) → slice_get (specs_of tables.now) place ≡ Some spec → IfOk result.1 (λ answer. Gets passes (At place (finalise_turn id spec.schema)) now answer result.0) }
    ensures loses { (spec : TableSpec) → slice_get (specs_of tables.now) place ≡ Some spec → OnErr result.1 (Loses passes (At place (finalise_turn id spec.schema)) now result.0) }
{
    let command = Command::Finalise { stream: ref_of(id) };
    let (passes, reply) = tables.act::<R, Answer>(rt, alloc, place, passes, command, now);
    match reply {
        Ok(reply) => (passes, told_finalised(alloc, &reply)),
        Err(memory) => (passes, Err(memory)),
    }
}

#[tactic(auto, using(call_names::proofs::LossLemmas::untouched))]
fn finalise_named<R: Wait>(
    tables: &Tables,
    rt: &R,
    alloc: Global,
    passes: Passes,
    name: &WriteName,
    now: i64,
) -> (Passes, Result<Answer, Memory>)
    requires theirs { AreTheirs tables.now passes }
    requires in_time { now ≤ℤ LATEST_READING }
    ensures theirs { AreTheirs tables.now result.0 }
    ensures gets { IfOk result.1 (λ answer. Gets passes (finalise_on (specs_of tables.now) (Some name.now)) now answer result.0) }
    ensures loses { OnErr result.1 (Loses passes (finalise_on (specs_of tables.now) (Some name.now)) now result.0) }
{
    match find(alloc, tables, &name.table) {
        Ok(Some(place)) => {
            let _spec = tables.spec(place);
            finalise_at(tables, rt, alloc, place, passes, name.stream, now)
        }
        Ok(None) => (passes, refused_for(alloc, Why::NoTable)),
        Err(memory) => (passes, Err(memory)),
    }
}

#[tactic(auto, using(call_names::proofs::LossLemmas::untouched))]
fn finalise_text<R: Wait>(
    tables: &Tables,
    rt: &R,
    alloc: Global,
    passes: Passes,
    text: &str,
    now: i64,
) -> (Passes, Result<Answer, Memory>)
    requires theirs { AreTheirs tables.now passes }
    requires in_time { now ≤ℤ LATEST_READING }
    ensures theirs { AreTheirs tables.now result.0 }
    ensures gets { IfOk result.1 (λ answer. Gets passes (finalise_on (specs_of tables.now) (write_name_of text.now)) now answer result.0) }
    ensures loses { OnErr result.1 (Loses passes (finalise_on (specs_of tables.now) (write_name_of text.now)) now result.0) }
{
    match name_of(alloc, text) {
        Ok(Some(name)) => finalise_named(tables, rt, alloc, passes, &name, now),
        Ok(None) => (passes, refused_for(alloc, Why::BadName)),
        Err(memory) => (passes, Err(memory)),
    }
}

/// Answers FinalizeWriteStream by its plan, which takes a turn at the table that the message names. `now` is a reading of
/// the clock, in microseconds since 1970-01-01.
///
/// At want of memory the answer is lost: nothing was entered, or all but the answer was done.
#[tactic(auto, using(call_names::proofs::LossLemmas::untouched), unfolding(call_plans::specs::Finalising::finalise_plan))]
pub fn finalise<R: Wait>(
    tables: &Tables,
    rt: &R,
    alloc: Global,
    passes: Passes,
    message: &[u8],
    now: i64,
) -> (Passes, Result<Answer, Memory>)
    requires small { length message.now < 2 ^ 32 }
    requires theirs { AreTheirs tables.now passes }
    requires in_time { now ≤ℤ LATEST_READING }
    ensures theirs { AreTheirs tables.now result.0 }
    ensures gets { IfOk result.1 (λ answer. Gets passes (finalise_plan (specs_of tables.now) message.now) now answer result.0) }
    ensures loses { OnErr result.1 (Loses passes (finalise_plan (specs_of tables.now) message.now) now result.0) }
{
    match FinalizeWriteStreamRequest::decode(alloc, message) {
        Ok(request) => finalise_text(tables, rt, alloc, passes, request.name.text(), now),
        Err(fault) => (passes, unreadable(alloc, fault)),
    }
}
