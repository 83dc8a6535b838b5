//! BatchCommitWriteStreams.

ghost use Rattle.std.specs.Prelude.{◌≡◌, ◌<◌, ◌^◌, ◌≤ℤ◌, length, slice_get, Some, Ok, IfOk, OnErr};
ghost use Rattle.table_model.specs.declared.limits.TheConstants.{LATEST_READING};
ghost use Rattle.table_model.specs.declared.commands.Command.TheVariants as command;
ghost use Rattle.open_tables.specs.Tables.{AreTheirs, specs_of};
ghost use Rattle.open_tables.specs.Plans.{At, Gets, Loses, on_command};
ghost use Rattle.table_spec.specs.declared.spec.TableSpec.{TableSpec};
ghost use Rattle.call_plans.specs.Committed.{told_committed};
ghost use Rattle.call_plans.specs.Committing.{commit_by, commit_plan};

use crate::answers::refused_for;
use crate::committed::told_committed;
use crate::deciding::{Decided, decide};
use call_names::unreadable;
use conn_requests::Answer;
use open_tables::{Passes, Tables};
use outside::{Memory, Text};
use std::alloc::Global;
use std::sync::Wait;
use table_model::{Command, Refs, Reply};
use write_msgs::BatchCommitWriteStreamsRequest;

/// Asks the table at this place to commit the streams of these names.
fn commit_at<R: Wait>(
    tables: &Tables,
    rt: &R,
    alloc: Global,
    place: u32,
    passes: Passes,
    texts: &[Text],
    streams: Refs,
    now: i64,
) -> (Passes, Result<Answer, Memory>)
    requires place { place < length tables.now }
    requires theirs { AreTheirs tables.now passes }
    requires few { length streams < 2 ^ 32 }
    requires in_time { now ≤ℤ LATEST_READING }
    ensures theirs { AreTheirs tables.now result.0 }
    ensures gets { (spec : TableSpec) → slice_get (specs_of tables.now) place ≡ Some spec → IfOk result.1 (λ answer. Gets passes (At place (on_command spec.schema (command.Commit streams) (told_committed texts.now))) now answer result.0) }
    ensures loses { (spec : TableSpec) → slice_get (specs_of tables.now) place ≡ Some spec → OnErr result.1 (Loses passes (At place (on_command spec.schema (command.Commit streams) (told_committed texts.now))) now result.0) }
{
    let command = Command::Commit { streams };
    let (passes, reply) = tables.act::<R, Reply>(rt, alloc, place, passes, command, now);
    match reply {
        Ok(reply) => (passes, told_committed(alloc, texts, &reply)),
        Err(memory) => (passes, Err(memory)),
    }
}

#[tactic(auto, using(call_names::proofs::LossLemmas::untouched))]
fn commit_request<R: Wait>(
    tables: &Tables,
    rt: &R,
    alloc: Global,
    passes: Passes,
    request: &BatchCommitWriteStreamsRequest,
    now: i64,
) -> (Passes, Result<Answer, Memory>)
    requires few { length request.now.write_streams < 2 ^ 32 }
    requires theirs { AreTheirs tables.now passes }
    requires in_time { now ≤ℤ LATEST_READING }
    ensures theirs { AreTheirs tables.now result.0 }
    ensures gets { IfOk result.1 (λ answer. Gets passes (commit_by (specs_of tables.now) (Ok request.now)) now answer result.0) }
    ensures loses { OnErr result.1 (Loses passes (commit_by (specs_of tables.now) (Ok request.now)) now result.0) }
{
    match decide(alloc, tables, request) {
        Ok(Decided::Asks { place, streams }) => {
            let texts = request.write_streams.texts();
            commit_at(tables, rt, alloc, place, passes, texts, streams, now)
        }
        Ok(Decided::Refused(cause)) => (passes, refused_for(alloc, cause)),
        Err(memory) => (passes, Err(memory)),
    }
}

/// Answers BatchCommitWriteStreams by its plan, which takes one turn at the table of the streams. `now` is a reading of the
/// clock, in microseconds since 1970-01-01.
///
/// Refused before the table is asked, in this order: `BadName` where the parent or a stream is no name, `NoTable`,
/// `NoStreams`, `OtherTable`, and `Twice` where two streams that no table has are one text.
///
/// At want of memory the answer is lost: nothing was entered, or all but the answer was done.
#[tactic(auto, using(call_names::proofs::LossLemmas::untouched), unfolding(call_plans::specs::Committing::commit_plan))]
pub fn commit<R: Wait>(
    tables: &Tables,
    rt: &R,
    alloc: Global,
    passes: Passes,
    message: &[u8],
    now: i64,
) -> (Passes, Result<Answer, Memory>)
    requires small { length message.now < 2 ^ 32 }
    requires theirs { AreTheirs tables.now passes }
    requires in_time { now ≤ℤ LATEST_READING }
    ensures theirs { AreTheirs tables.now result.0 }
    ensures gets { IfOk result.1 (λ answer. Gets passes (commit_plan (specs_of tables.now) message.now) now answer result.0) }
    ensures loses { OnErr result.1 (Loses passes (commit_plan (specs_of tables.now) message.now) now result.0) }
{
    match BatchCommitWriteStreamsRequest::decode(alloc, message) {
        Ok(request) => commit_request(tables, rt, alloc, passes, &request, now),
        Err(fault) => (passes, unreadable(alloc, fault)),
    }
}
