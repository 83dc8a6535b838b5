//! ReadRows, as a body that is polled, or as the answer with which it ends at once.

ghost use Rattle.std.specs.Prelude.{◌≡◌, ◌<◌, ◌^◌, length, slice_get, Some, Ok, IfOk, OnErr};
ghost use Rattle.resource_names.specs.Read.{read_name_of as name_in};
ghost use Rattle.row_responses.specs.Body.{IsOf};
ghost use Rattle.open_tables.specs.Tables.{AreTheirs, specs_of};
ghost use Rattle.open_tables.specs.Plans.{At, Gets, Loses};
ghost use Rattle.table_spec.specs.declared.spec.TableSpec.{TableSpec};
ghost use Rattle.call_plans.specs.Endings.{refused_for};
ghost use Rattle.call_plans.specs.Reading.{read_turn, read_on, read_plan};
ghost use Rattle.call_read.specs.Held.{held_answer};
ghost use Rattle.call_read.specs.Items.{told};

use crate::answers::refused_for;
use call_names::{node_of, read_name_of, unreadable};
use column_types::Schema;
use conn_requests::Answer;
use open_tables::{Passes, Tables};
use outside::Memory;
use read_msgs::ReadRowsRequest;
use resource_names::{ReadName, ReadPlace};
use rows_body::RowsBody;
use std::alloc::Global;
use std::sync::Wait;
use table_engine::Held;
use table_model::Why;

/// How a ReadRows call is answered.
#[derive(Drop)]
pub enum RowsAnswer<'t> {
    /// By the responses that this body gives, and then status 0, or that of the error that it gives.
    Body(RowsBody<'t>),
    /// At once.
    End(Answer),
}

/// At once, by this answer.
fn ended<'t>(answer: Result<Answer, Memory>) -> Result<RowsAnswer<'t>, Memory>
    ensures { IfOk result (λ rows. answer ≡ Ok (told rows)) }
{
    Ok(RowsAnswer::End(answer?))
}

/// At once, by the status of a cause.
fn ended_for<'t>(alloc: Global, cause: Why) -> Result<RowsAnswer<'t>, Memory>
    ensures { IfOk result (λ rows. told rows ≡ refused_for cause) }
{
    Ok(RowsAnswer::End(refused_for(alloc, cause)?))
}

/// What is told of a node that a table holds, from an offset on, to one who reads it at `now`.
fn told_held<'t>(
    alloc: Global,
    schema: &'t Schema,
    held: Held,
    offset: i64,
    now: i64,
) -> Result<RowsAnswer<'t>, Memory>
    requires { IsOf schema.now held.lease }
    ensures { IfOk result (λ rows. told rows ≡ held_answer schema.now held offset now) }
{
    if held.expires <= held.moment.max(now) {
        return ended_for(alloc, Why::Expired);
    }
    if offset < 0 {
        return ended_for(alloc, Why::NegativeOffset);
    }
    let body = RowsBody::new(alloc, schema, held.lease, offset as u64);
    Ok(RowsAnswer::Body(body))
}

fn rows_at<'t, R: Wait>(
    tables: &'t Tables,
    rt: &R,
    alloc: Global,
    passes: Passes,
    node: ReadPlace,
    offset: i64,
    now: i64,
) -> (Passes, Result<RowsAnswer<'t>, Memory>)
    requires place { node.table < length tables.now }
    requires theirs { AreTheirs tables.now passes }
    ensures theirs { AreTheirs tables.now result.0 }
    ensures gets { (spec : TableSpec) → slice_get (specs_of tables.now) node.table ≡ Some spec → IfOk result.1 (λ rows. Gets passes (At node.table (read_turn node offset spec.schema)) now (told rows) result.0) }
    ensures loses { (spec : TableSpec) → slice_get (specs_of tables.now) node.table ≡ Some spec → OnErr result.1 (Loses passes (At node.table (read_turn node offset spec.schema)) now result.0) }
{
    let spec = tables.spec(node.table);
    let (passes, look) = tables.look(rt, node.table, passes, node.session, node.node);
    match look {
        Ok(Some(held)) => (passes, told_held(alloc, &spec.schema, held, offset, now)),
        Ok(None) => (passes, ended_for(alloc, Why::NoRead)),
        Err(memory) => (passes, Err(memory)),
    }
}

#[tactic(auto, using(call_names::proofs::LossLemmas::untouched))]
fn rows_named<'t, R: Wait>(
    tables: &'t Tables,
    rt: &R,
    alloc: Global,
    passes: Passes,
    request: &ReadRowsRequest,
    name: &ReadName,
    now: i64,
) -> (Passes, Result<RowsAnswer<'t>, Memory>)
    requires theirs { AreTheirs tables.now passes }
    ensures theirs { AreTheirs tables.now result.0 }
    ensures gets { IfOk result.1 (λ rows. Gets passes (read_on (specs_of tables.now) request.now (Some name.now)) now (told rows) result.0) }
    ensures loses { OnErr result.1 (Loses passes (read_on (specs_of tables.now) request.now (Some name.now)) now result.0) }
{
    match node_of(tables, name) {
        Some(node) => {
            let _spec = tables.spec(node.table);
            rows_at(tables, rt, alloc, passes, node, request.offset, now)
        }
        None => (passes, ended_for(alloc, Why::NoRead)),
    }
}

#[tactic(auto, using(call_names::proofs::LossLemmas::untouched))]
fn rows_asked<'t, R: Wait>(
    tables: &'t Tables,
    rt: &R,
    alloc: Global,
    passes: Passes,
    request: &ReadRowsRequest,
    now: i64,
) -> (Passes, Result<RowsAnswer<'t>, Memory>)
    requires theirs { AreTheirs tables.now passes }
    ensures theirs { AreTheirs tables.now result.0 }
    ensures gets { IfOk result.1 (λ rows. Gets passes (read_on (specs_of tables.now) request.now (name_in request.now.read_stream)) now (told rows) result.0) }
    ensures loses { OnErr result.1 (Loses passes (read_on (specs_of tables.now) request.now (name_in request.now.read_stream)) now result.0) }
{
    match read_name_of(alloc, request.read_stream.text()) {
        Ok(Some(name)) => rows_named(tables, rt, alloc, passes, request, &name, now),
        Ok(None) => (passes, ended_for(alloc, Why::BadName)),
        Err(memory) => (passes, Err(memory)),
    }
}

/// Answers ReadRows by its plan: one look at the table of the read stream, behind which the responses need no table any
/// more. `now` is a reading of the clock, in microseconds since 1970-01-01.
///
/// Refused at once, in this order: `BadName`, `NoRead`, `Expired` by the greater of `now` and the moment of the table's
/// history, and `NegativeOffset`. The body refuses an offset that exceeds the number of matching rows. Nothing is entered.
///
/// At want of memory the answer is lost.
#[tactic(auto, using(call_names::proofs::LossLemmas::untouched), unfolding(call_plans::specs::Reading::read_plan))]
pub fn rows<'t, R: Wait>(
    tables: &'t Tables,
    rt: &R,
    alloc: Global,
    passes: Passes,
    message: &[u8],
    now: i64,
) -> (Passes, Result<RowsAnswer<'t>, Memory>)
    requires small { length message.now < 2 ^ 32 }
    requires theirs { AreTheirs tables.now passes }
    ensures theirs { AreTheirs tables.now result.0 }
    ensures gets { IfOk result.1 (λ rows. Gets passes (read_plan (specs_of tables.now) message.now) now (told rows) result.0) }
    ensures loses { OnErr result.1 (Loses passes (read_plan (specs_of tables.now) message.now) now result.0) }
{
    match ReadRowsRequest::decode(alloc, message) {
        Ok(request) => rows_asked(tables, rt, alloc, passes, &request, now),
        Err(fault) => (passes, ended(unreadable(alloc, fault))),
    }
}
