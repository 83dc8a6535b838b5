//! The one answer to each command, by the facts of a history and a look-up of its streams.
#![tactic(auto, unfolding(crate::specs::Answer::answer_by))]

ghost use Rattle.std.specs.Prelude.{◌≡◌, ◌+◌, ◌<◌, ◌^◌, ◌≤ℤ◌, nat_lt, nat_le, length, IfOk};
ghost use Rattle.table_model.specs.declared.limits.TheConstants.{LATEST_READING as latest_reading, MAX_ENTRIES as most_entries, MAX_WEIGHT as most_weight};
ghost use Rattle.table_model.specs.Facts.{size_of_rows};
ghost use Rattle.table_model.specs.Answer.{answer_by, append_answer, commit_answer, commit_or_not as commit_or_not_of, create_answer, cut_answer, entry_of, finalise_answer, flush_answer, get_answer, moment_at as moment_at_of, session_answer, split_answer};
ghost use Rattle.table_model.specs.Checks.{commit_check as commit_check_of};
ghost use Rattle.table_model.specs.Reasons.{refusal_of};
ghost use Rattle.table_model.specs.Legal.{HasPlaces};

use super::checks::{
    FinalMove, FlushMove, append_check, finalise_check, flush_check, get_check, read_check,
};
use super::commands::{Command, Rows};
use super::commits::{CommitFault, commit_check};
use super::entries::{Change, Entry};
use super::facts::{Facts, Sessions, Streams};
use super::limits::{
    COLUMN_OVERHEAD, MAX_ENTRIES, MAX_SESSIONS, MAX_STREAMS, MAX_WEIGHT, ROW_OVERHEAD,
    SESSION_LIFETIME,
};
use super::reasons::{Refusal, Why};
use super::replies::{Answer, Reply, StreamErrors};
use super::sessions::ReadNode;
use super::streams::{Refs, StreamKind, StreamRef, StreamState};
use column_types::{Fields, Pred};
use outside::Memory;
use split_tree::{Cut, roots_of};
use std::alloc::Global;

/// What a command is answered, by the facts of the history, the look-up of its streams and sessions and a reading
/// of the clock, in microseconds since 1970-01-01, which like the latest moment is at most
/// [`LATEST_READING`](super::limits::LATEST_READING).
pub fn answer_to<S: Streams + Sessions>(
    alloc: Global,
    facts: &Facts,
    look: &S,
    command: Command,
    now: i64,
) -> Result<Answer, Memory>
    requires places { HasPlaces command }
    requires in_time { moment_at_of facts.now now ≤ℤ latest_reading }
    ensures { IfOk result (λ answer. answer ≡ answer_by facts.now (record { stream = S.state look.now; node = S.read_node look.now; visible_by = S.visible_by look.now }) command now) }
{
    Ok(match command {
        Command::Create { kind } => create(facts, kind, now),
        Command::Append {
            stream,
            offset,
            rows,
            bytes,
        } => {
            let check = append_check(stream, look.state(stream), offset, rows.len());
            append(facts, stream, check, rows, bytes, now)
        }
        Command::Flush { stream, offset } => {
            let check = flush_check(look.state(stream), offset);
            flush(facts, stream, check, now)
        }
        Command::Finalise { stream } => {
            let check = finalise_check(stream, look.state(stream));
            finalise(facts, stream, check, now)
        }
        Command::Commit { streams } => commit(alloc, facts, look, streams, now)?,
        Command::Get { stream } => get(get_check(look.state(stream))),
        Command::Session {
            pred,
            fields,
            count,
            snapshot,
        } => session(alloc, facts, look, pred, fields, count, snapshot, now)?,
        Command::Split { session, node } => {
            let found = look.node(alloc, session, node)?;
            let check = read_check(found, moment_at(facts, now));
            split(facts, session, node, check, now)
        }
    })
}

fn refuse(why: Why) -> Answer
    ensures { result ≡ Answer.Refuse (refusal_of why) }
{
    Answer::Refuse(Refusal::of(why))
}

// A new entry of the caller.
fn entry(facts: &Facts, moment: i64, change: Change) -> Entry
    ensures { result ≡ entry_of facts.now moment change }
{
    Entry {
        caller: facts.caller,
        number: facts.mine,
        moment,
        change,
    }
}

// The moment of an entry.
fn moment_at(facts: &Facts, now: i64) -> i64
    ensures { result ≡ moment_at_of facts.now now }
{
    facts.latest.max(now)
}

fn is_full(facts: &Facts) -> bool
    ensures { result ≡ nat_le most_entries facts.now.entries }
{
    facts.entries >= MAX_ENTRIES
}

// Whether a table with these rows too would pass the limit of their sizes.
fn is_heavy(facts: &Facts, count: usize, bytes: u64) -> bool
    ensures { result ≡ nat_lt most_weight (facts.now.weight + size_of_rows facts.now.columns count bytes) }
{
    let row = ROW_OVERHEAD + COLUMN_OVERHEAD * u64::from(facts.columns);
    let Some(rows) = row.checked_mul(count as u64) else {
        return true;
    };
    let Some(size) = rows.checked_add(bytes) else {
        return true;
    };
    let Some(weight) = facts.weight.checked_add(size) else {
        return true;
    };
    weight > MAX_WEIGHT
}

fn create(facts: &Facts, kind: StreamKind, now: i64) -> Answer
    ensures { result ≡ create_answer facts.now kind now }
{
    if facts.streams >= MAX_STREAMS {
        return refuse(Why::FullStreams);
    }
    if is_full(facts) {
        return refuse(Why::FullEntries);
    }
    let stream = facts.streams + 1;
    let moment = moment_at(facts, now);
    let change = Change::Create { stream, kind };
    Answer::Accept(
        entry(facts, moment, change),
        Reply::Created { stream, moment },
    )
}

fn append(
    facts: &Facts,
    stream: StreamRef,
    check: Result<u64, Refusal>,
    rows: Rows,
    bytes: u64,
    now: i64,
) -> Answer
    ensures { result ≡ append_answer facts.now stream check rows bytes now }
{
    let offset = match check {
        Ok(offset) => offset,
        Err(refusal) => return Answer::Refuse(refusal),
    };
    if is_heavy(facts, rows.len(), bytes) {
        return refuse(Why::FullRows);
    }
    if is_full(facts) {
        return refuse(Why::FullEntries);
    }
    let told = if stream.is_default() {
        None
    } else {
        Some(offset)
    };
    let change = Change::Append {
        stream,
        offset,
        rows,
        bytes,
    };
    let moment = moment_at(facts, now);
    Answer::Accept(
        entry(facts, moment, change),
        Reply::Appended { offset: told },
    )
}

fn flush(facts: &Facts, stream: StreamRef, check: Result<FlushMove, Refusal>, now: i64) -> Answer
    ensures { result ≡ flush_answer facts.now stream check now }
{
    let FlushMove { from, upto } = match check {
        Ok(reach) => reach,
        Err(refusal) => return Answer::Refuse(refusal),
    };
    if upto <= from {
        let offset = from.saturating_sub(1);
        return Answer::Same(Reply::Flushed { offset });
    }
    if is_full(facts) {
        return refuse(Why::FullEntries);
    }
    let moment = moment_at(facts, now);
    let change = Change::Flush { stream, upto };
    Answer::Accept(
        entry(facts, moment, change),
        Reply::Flushed { offset: upto - 1 },
    )
}

fn finalise(facts: &Facts, stream: StreamRef, check: Result<FinalMove, Refusal>, now: i64) -> Answer
    ensures { result ≡ finalise_answer facts.now stream check now }
{
    let FinalMove { rows, already } = match check {
        Ok(end) => end,
        Err(refusal) => return Answer::Refuse(refusal),
    };
    if already {
        return Answer::Same(Reply::Finalised { rows });
    }
    if is_full(facts) {
        return refuse(Why::FullEntries);
    }
    let moment = moment_at(facts, now);
    let change = Change::Finalise { stream };
    Answer::Accept(entry(facts, moment, change), Reply::Finalised { rows })
}

fn commit<S: Streams>(
    alloc: Global,
    facts: &Facts,
    look: &S,
    streams: Refs,
    now: i64,
) -> Result<Answer, Memory>
    requires { length streams < 2 ^ 32 }
    ensures { IfOk result (λ answer. answer ≡ commit_answer facts.now streams (commit_check_of (S.state look.now) streams) now) }
{
    match commit_check(alloc, look, streams.as_slice()) {
        Ok(errors) => Ok(commit_or_not(facts, streams, errors, now)),
        Err(CommitFault::Refused(refusal)) => Ok(Answer::Refuse(refusal)),
        Err(CommitFault::Memory) => Err(Memory),
    }
}

// All streams are committed, or, where one can't be, none is.
fn commit_or_not(facts: &Facts, streams: Refs, errors: StreamErrors, now: i64) -> Answer
    ensures { result ≡ commit_or_not_of facts.now streams errors now }
{
    if !errors.is_empty() {
        return Answer::Same(Reply::NotCommitted { errors });
    }
    if is_full(facts) {
        return refuse(Why::FullEntries);
    }
    let moment = moment_at(facts, now);
    let change = Change::Commit { streams };
    Answer::Accept(entry(facts, moment, change), Reply::Committed { moment })
}

fn get(check: Result<StreamState, Refusal>) -> Answer
    ensures { result ≡ get_answer check }
{
    match check {
        Ok(state) => Answer::Same(Reply::Stream {
            kind: state.kind,
            created: state.created,
            committed: state.committed,
        }),
        Err(refusal) => Answer::Refuse(refusal),
    }
}

// A session is begun, over the rows that are visible now or were visible at the moment of its snapshot.
fn session<S: Sessions>(
    alloc: Global,
    facts: &Facts,
    look: &S,
    pred: Pred,
    fields: Fields,
    count: i32,
    snapshot: Option<i64>,
    now: i64,
) -> Result<Answer, Memory>
    requires in_time { moment_at_of facts.now now ≤ℤ latest_reading }
    ensures { IfOk result (λ answer. answer ≡ session_answer facts.now (S.visible_by look.now) pred fields count snapshot now) }
{
    if count < 0 {
        return Ok(refuse(Why::NegativeCount));
    }
    if facts.sessions >= MAX_SESSIONS {
        return Ok(refuse(Why::FullSessions));
    }
    if is_full(facts) {
        return Ok(refuse(Why::FullEntries));
    }
    let moment = moment_at(facts, now);
    let at = look.visible_by(alloc, snapshot.unwrap_or(moment))?;
    let roots = roots_of(at, count as u32);
    let session = facts.sessions + 1;
    let expires = moment + SESSION_LIFETIME;
    let change = Change::Session {
        session,
        at,
        pred,
        fields,
        roots,
    };
    let told = Reply::Session {
        session,
        roots,
        expires,
    };
    Ok(Answer::Accept(entry(facts, moment, change), told))
}

// A node of a session is split.
fn split(
    facts: &Facts,
    session: u32,
    node: u32,
    check: Result<ReadNode, Refusal>,
    now: i64,
) -> Answer
    ensures { result ≡ split_answer facts.now session node check now }
{
    match check {
        Ok(state) => cut_open(facts, session, node, state.node.cut(state.nodes), now),
        Err(refusal) => Answer::Refuse(refusal),
    }
}

// What the cut of a node is answered.
fn cut_open(facts: &Facts, session: u32, node: u32, cut: Cut, now: i64) -> Answer
    ensures { result ≡ cut_answer facts.now session node cut now }
{
    let (left, right) = match cut {
        Cut::Small => return Answer::Same(Reply::NoSplit),
        Cut::Already { left, right } => return Answer::Same(Reply::Children { left, right }),
        Cut::Full { nodes: _ } => return refuse(Why::FullNodes),
        Cut::Made { left, right } => (left, right),
    };
    if is_full(facts) {
        return refuse(Why::FullEntries);
    }
    let change = Change::Split {
        session,
        node,
        left,
        right,
    };
    Answer::Accept(
        entry(facts, moment_at(facts, now), change),
        Reply::Children { left, right },
    )
}
