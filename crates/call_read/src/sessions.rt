//! CreateReadSession.

ghost use Rattle.std.specs.Prelude.{◌≡◌, ◌<◌, ◌^◌, ◌≤ℤ◌, length, map, slice_get, Some, Ok, IfOk, IfSome, OnErr};
ghost use Rattle.std.specs.List.{range_with_len};
ghost use Rattle.column_types.specs.Fields.{IsMadeFor};
ghost use Rattle.column_types.specs.Typed.{IsTyped};
ghost use Rattle.resource_names.specs.Project.{project_name_of};
ghost use Rattle.resource_names.specs.Table.{table_name_of};
ghost use Rattle.table_model.specs.declared.limits.TheConstants.{LATEST_READING};
ghost use Rattle.table_spec.specs.declared.spec.TableSpec.{TableSpec};
ghost use Rattle.open_tables.specs.Tables.{AreTheirs, specs_of};
ghost use Rattle.open_tables.specs.Plans.{At, Gets, Loses};
ghost use Rattle.call_plans.specs.ReadNames.{read_stream};
ghost use Rattle.call_plans.specs.Sessions.{described, told_begun, snapshot_in, session_turn, session_on, create_session_by, create_session_plan};

use crate::answers::{refusal_answer, refused_for, responded};
use crate::moments::timestamp;
use crate::splitting::read_stream;
use crate::wanting::{Wanted, Wanting, want};
use avro_rows::schema_text;
use call_names::unreadable;
use call_plans::AVRO;
use column_types::{Fields, Schema};
use conn_requests::Answer;
use open_tables::{Passes, Tables};
use outside::{Blob, Memory, Text};
use read_msgs::{AvroSchema, CreateReadSessionRequest, ReadSession, ReadStreams};
use resource_names::{ProjectName, session_text};
use std::alloc::Global;
use std::sync::Wait;
use table_model::{Command, Reply, Why};

/// The first nodes of the session of a number, of the table at a place.
fn read_streams(
    alloc: Global,
    project: &str,
    place: u32,
    session: u32,
    count: u32,
) -> Result<ReadStreams, Memory>
    ensures { IfOk result (λ streams. streams ≡ map (read_stream project.now place session) (range_with_len 0 count)) }
{
    let mut streams = Vec::with_capacity(alloc, count as usize)?;
    for node in 0..count {
        streams.push(read_stream(alloc, project, place, session, node)?)?;
    }
    Ok(ReadStreams::from_vec(streams))
}

/// The session of a number, as a request asks for it, of the table of these columns.
fn described(
    alloc: Global,
    project: &ProjectName,
    asked: &ReadSession,
    place: u32,
    schema: &Schema,
    fields: &Fields,
    session: u32,
    roots: u32,
    expires: i64,
) -> Result<ReadSession, Memory>
    requires { IsMadeFor schema.now fields.now }
    ensures { IfOk result (λ told. told ≡ described project.now asked.now place schema.now fields.now session roots expires) }
{
    let project = project.project.text();
    Ok(ReadSession {
        name: session_text(alloc, project, place, session)?,
        expire_time: Some(timestamp(expires)),
        data_format: AVRO,
        avro_schema: Some(AvroSchema {
            schema: schema_text(alloc, schema, fields)?,
        }),
        table: Text::of(alloc, asked.table.text())?,
        table_modifiers: None,
        read_options: None,
        streams: read_streams(alloc, project, place, session, roots)?,
    })
}

fn told_begun(
    alloc: Global,
    project: &ProjectName,
    asked: &ReadSession,
    place: u32,
    schema: &Schema,
    fields: &Fields,
    reply: &Reply,
) -> Result<Answer, Memory>
    requires { IsMadeFor schema.now fields.now }
    ensures { IfOk result (λ answer. answer ≡ told_begun project.now asked.now place schema.now fields.now reply.now) }
{
    match reply {
        Reply::Session {
            session,
            roots,
            expires,
        } => {
            let told = described(
                alloc, project, asked, place, schema, fields, *session, *roots, *expires,
            )?;
            responded(alloc, told.encode(alloc)?)
        }
        Reply::Refused(refusal) => refusal_answer(alloc, refusal),
        _ => responded(alloc, Blob::of(alloc, &[])?),
    }
}

#[tactic(auto, using(call_names::proofs::LossLemmas::untouched))]
fn session_at<R: Wait>(
    tables: &Tables,
    rt: &R,
    alloc: Global,
    passes: Passes,
    asked: &ReadSession,
    count: i32,
    wanted: Wanted,
    now: i64,
) -> (Passes, Result<Answer, Memory>)
    requires place { wanted.place < length tables.now }
    requires taken { IfSome (slice_get (specs_of tables.now) wanted.place) (λ spec. IsMadeFor spec.schema wanted.fields × IsTyped spec.schema wanted.pred) }
    requires snapshot { wanted.snapshot ≡ snapshot_in asked.now }
    requires theirs { AreTheirs tables.now passes }
    requires in_time { now ≤ℤ LATEST_READING }
    ensures theirs { AreTheirs tables.now result.0 }
    ensures gets { (spec : TableSpec) → slice_get (specs_of tables.now) wanted.place ≡ Some spec → IfOk result.1 (λ answer. Gets passes (At wanted.place (session_turn wanted.project asked.now wanted.place spec.schema count wanted.fields wanted.pred)) now answer result.0) }
    ensures loses { (spec : TableSpec) → slice_get (specs_of tables.now) wanted.place ≡ Some spec → OnErr result.1 (Loses passes (At wanted.place (session_turn wanted.project asked.now wanted.place spec.schema count wanted.fields wanted.pred)) now result.0) }
{
    let Wanted {
        project,
        place,
        fields,
        pred,
        snapshot,
    } = wanted;
    let schema = &tables.spec(place).schema;
    let chosen = match fields.copy(alloc) {
        Ok(chosen) => chosen,
        Err(memory) => return (passes, Err(memory)),
    };
    let command = Command::Session {
        pred,
        fields: chosen,
        count,
        snapshot,
    };
    let (passes, reply) = tables.act::<R, Answer>(rt, alloc, place, passes, command, now);
    match reply {
        Ok(reply) => (
            passes,
            told_begun(alloc, &project, asked, place, schema, &fields, &reply),
        ),
        Err(memory) => (passes, Err(memory)),
    }
}

#[tactic(auto, using(call_names::proofs::LossLemmas::untouched))]
fn session_asked<R: Wait>(
    tables: &Tables,
    rt: &R,
    alloc: Global,
    passes: Passes,
    asked: &ReadSession,
    parent: &str,
    count: i32,
    now: i64,
) -> (Passes, Result<Answer, Memory>)
    requires theirs { AreTheirs tables.now passes }
    requires in_time { now ≤ℤ LATEST_READING }
    ensures theirs { AreTheirs tables.now result.0 }
    ensures gets { IfOk result.1 (λ answer. Gets passes (session_on (specs_of tables.now) asked.now count (project_name_of parent.now) (table_name_of asked.now.table)) now answer result.0) }
    ensures loses { OnErr result.1 (Loses passes (session_on (specs_of tables.now) asked.now count (project_name_of parent.now) (table_name_of asked.now.table)) now result.0) }
{
    match want(alloc, tables, asked, parent, count) {
        Ok(Wanting::Asks(wanted)) => {
            session_at(tables, rt, alloc, passes, asked, count, wanted, now)
        }
        Ok(Wanting::Refused(cause)) => (passes, refused_for(alloc, cause)),
        Err(memory) => (passes, Err(memory)),
    }
}

// A request without a session names no table.
#[tactic(auto, using(call_names::proofs::LossLemmas::untouched))]
fn session_request<R: Wait>(
    tables: &Tables,
    rt: &R,
    alloc: Global,
    passes: Passes,
    request: &CreateReadSessionRequest,
    now: i64,
) -> (Passes, Result<Answer, Memory>)
    requires theirs { AreTheirs tables.now passes }
    requires in_time { now ≤ℤ LATEST_READING }
    ensures theirs { AreTheirs tables.now result.0 }
    ensures gets { IfOk result.1 (λ answer. Gets passes (create_session_by (specs_of tables.now) (Ok request.now)) now answer result.0) }
    ensures loses { OnErr result.1 (Loses passes (create_session_by (specs_of tables.now) (Ok request.now)) now result.0) }
{
    match &request.read_session {
        Some(asked) => {
            let (parent, count) = (request.parent.text(), request.max_stream_count);
            session_asked(tables, rt, alloc, passes, asked, parent, count, now)
        }
        None => (passes, refused_for(alloc, Why::BadName)),
    }
}

/// Answers CreateReadSession by its plan, which takes a turn at the table that the message names. `now` is a reading of the
/// clock, in microseconds since 1970-01-01.
///
/// Refused before the table is asked, in this order: `BadName` where the parent or the table is no name, `NoTable`,
/// `BadFormat`, `BadTime`, `NegativeCount`, `UnknownColumn` for a selected field, and what refuses the restriction. A
/// message that is absent is one without a field.
///
/// At want of memory the answer is lost: nothing was entered, or all but the answer was done.
#[tactic(auto, using(call_names::proofs::LossLemmas::untouched), unfolding(call_plans::specs::Sessions::create_session_plan))]
pub fn create_session<R: Wait>(
    tables: &Tables,
    rt: &R,
    alloc: Global,
    passes: Passes,
    message: &[u8],
    now: i64,
) -> (Passes, Result<Answer, Memory>)
    requires small { length message.now < 2 ^ 32 }
    requires theirs { AreTheirs tables.now passes }
    requires in_time { now ≤ℤ LATEST_READING }
    ensures theirs { AreTheirs tables.now result.0 }
    ensures gets { IfOk result.1 (λ answer. Gets passes (create_session_plan (specs_of tables.now) message.now) now answer result.0) }
    ensures loses { OnErr result.1 (Loses passes (create_session_plan (specs_of tables.now) message.now) now result.0) }
{
    match CreateReadSessionRequest::decode(alloc, message) {
        Ok(request) => session_request(tables, rt, alloc, passes, &request, now),
        Err(fault) => (passes, unreadable(alloc, fault)),
    }
}
