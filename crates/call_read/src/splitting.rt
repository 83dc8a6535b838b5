//! SplitReadStream.

ghost use Rattle.std.specs.Prelude.{◌≡◌, ◌<◌, ◌^◌, ◌≤ℤ◌, length, slice_get, Some, IfOk, OnErr};
ghost use Rattle.resource_names.specs.Read.{read_name_of as name_in};
ghost use Rattle.table_model.specs.declared.limits.TheConstants.{LATEST_READING};
ghost use Rattle.open_tables.specs.Tables.{AreTheirs, specs_of};
ghost use Rattle.open_tables.specs.Plans.{At, Gets, Loses};
ghost use Rattle.table_spec.specs.declared.spec.TableSpec.{TableSpec};
ghost use Rattle.call_plans.specs.ReadNames.{read_stream};
ghost use Rattle.call_plans.specs.Splitting.{children, told_split, split_turn, split_on, split_plan};

use crate::answers::{refusal_answer, refused_for, responded};
use call_names::{node_of, read_name_of, unreadable};
use conn_requests::Answer;
use open_tables::{Passes, Tables};
use outside::{Blob, Memory};
use read_msgs::{ReadStream, SplitReadStreamRequest, SplitReadStreamResponse};
use resource_names::{ReadName, ReadPlace, read_text};
use std::alloc::Global;
use std::sync::Wait;
use table_model::{Command, Reply, Why};

/// A node of the session of a number, of the table at a place.
pub(crate) fn read_stream(
    alloc: Global,
    project: &str,
    place: u32,
    session: u32,
    node: u32,
) -> Result<ReadStream, Memory>
    ensures { IfOk result (λ stream. stream ≡ read_stream project.now place session node) }
{
    Ok(ReadStream {
        name: read_text(alloc, project, place, session, node)?,
    })
}

fn children(
    alloc: Global,
    project: &str,
    node: ReadPlace,
    left: u32,
    right: u32,
) -> Result<SplitReadStreamResponse, Memory>
    ensures { IfOk result (λ response. response ≡ children project.now node left right) }
{
    let primary = read_stream(alloc, project, node.table, node.session, left)?;
    let remainder = read_stream(alloc, project, node.table, node.session, right)?;
    Ok(SplitReadStreamResponse {
        primary_stream: Some(primary),
        remainder_stream: Some(remainder),
    })
}

fn told_split(
    alloc: Global,
    project: &str,
    node: ReadPlace,
    reply: &Reply,
) -> Result<Answer, Memory>
    ensures { IfOk result (λ answer. answer ≡ told_split project.now node reply.now) }
{
    match reply {
        Reply::Children { left, right } => {
            let response = children(alloc, project, node, *left, *right)?;
            responded(alloc, response.encode(alloc)?)
        }
        Reply::NoSplit => {
            let response = SplitReadStreamResponse {
                primary_stream: None,
                remainder_stream: None,
            };
            responded(alloc, response.encode(alloc)?)
        }
        Reply::Refused(refusal) => refusal_answer(alloc, refusal),
        _ => responded(alloc, Blob::of(alloc, &[])?),
    }
}

fn split_at<R: Wait>(
    tables: &Tables,
    rt: &R,
    alloc: Global,
    passes: Passes,
    project: &str,
    node: ReadPlace,
    now: i64,
) -> (Passes, Result<Answer, Memory>)
    requires place { node.table < length tables.now }
    requires theirs { AreTheirs tables.now passes }
    requires in_time { now ≤ℤ LATEST_READING }
    ensures theirs { AreTheirs tables.now result.0 }
    ensures gets { (spec : TableSpec) → slice_get (specs_of tables.now) node.table ≡ Some spec → IfOk result.1 (λ answer. Gets passes (At node.table (split_turn project.now node spec.schema)) now answer result.0) }
    ensures loses { (spec : TableSpec) → slice_get (specs_of tables.now) node.table ≡ Some spec → OnErr result.1 (Loses passes (At node.table (split_turn project.now node spec.schema)) now result.0) }
{
    let command = Command::Split {
        session: node.session,
        node: node.node,
    };
    let (passes, reply) = tables.act::<R, Answer>(rt, alloc, node.table, passes, command, now);
    match reply {
        Ok(reply) => (passes, told_split(alloc, project, node, &reply)),
        Err(memory) => (passes, Err(memory)),
    }
}

#[tactic(auto, using(call_names::proofs::LossLemmas::untouched))]
fn split_named<R: Wait>(
    tables: &Tables,
    rt: &R,
    alloc: Global,
    passes: Passes,
    name: &ReadName,
    now: i64,
) -> (Passes, Result<Answer, Memory>)
    requires theirs { AreTheirs tables.now passes }
    requires in_time { now ≤ℤ LATEST_READING }
    ensures theirs { AreTheirs tables.now result.0 }
    ensures gets { IfOk result.1 (λ answer. Gets passes (split_on (specs_of tables.now) (Some name.now)) now answer result.0) }
    ensures loses { OnErr result.1 (Loses passes (split_on (specs_of tables.now) (Some name.now)) now result.0) }
{
    match node_of(tables, name) {
        Some(node) => {
            let _spec = tables.spec(node.table);
            split_at(tables, rt, alloc, passes, name.project.text(), node, now)
        }
        None => (passes, refused_for(alloc, Why::NoRead)),
    }
}

#[tactic(auto, using(call_names::proofs::LossLemmas::untouched))]
fn split_text<R: Wait>(
    tables: &Tables,
    rt: &R,
    alloc: Global,
    passes: Passes,
    text: &str,
    now: i64,
) -> (Passes, Result<Answer, Memory>)
    requires theirs { AreTheirs tables.now passes }
    requires in_time { now ≤ℤ LATEST_READING }
    ensures theirs { AreTheirs tables.now result.0 }
    ensures gets { IfOk result.1 (λ answer. Gets passes (split_on (specs_of tables.now) (name_in text.now)) now answer result.0) }
    ensures loses { OnErr result.1 (Loses passes (split_on (specs_of tables.now) (name_in text.now)) now result.0) }
{
    match read_name_of(alloc, text) {
        Ok(Some(name)) => split_named(tables, rt, alloc, passes, &name, now),
        Ok(None) => (passes, refused_for(alloc, Why::BadName)),
        Err(memory) => (passes, Err(memory)),
    }
}

/// Answers SplitReadStream by its plan, which takes a turn at the table of the read stream. `now` is a reading of the clock,
/// in microseconds since 1970-01-01.
///
/// Refused before the table is asked: `BadName`, and `NoRead` where the name can be no node of a session of a table that is
/// there. A session expires by the greater of `now` and the moment of the table's history.
///
/// At want of memory the answer is lost: nothing was entered, or all but the answer was done.
#[tactic(auto, using(call_names::proofs::LossLemmas::untouched), unfolding(call_plans::specs::Splitting::split_plan))]
pub fn split<R: Wait>(
    tables: &Tables,
    rt: &R,
    alloc: Global,
    passes: Passes,
    message: &[u8],
    now: i64,
) -> (Passes, Result<Answer, Memory>)
    requires small { length message.now < 2 ^ 32 }
    requires theirs { AreTheirs tables.now passes }
    requires in_time { now ≤ℤ LATEST_READING }
    ensures theirs { AreTheirs tables.now result.0 }
    ensures gets { IfOk result.1 (λ answer. Gets passes (split_plan (specs_of tables.now) message.now) now answer result.0) }
    ensures loses { OnErr result.1 (Loses passes (split_plan (specs_of tables.now) message.now) now result.0) }
{
    match SplitReadStreamRequest::decode(alloc, message) {
        Ok(request) => split_text(tables, rt, alloc, passes, request.name.text(), now),
        Err(fault) => (passes, unreadable(alloc, fault)),
    }
}
