//! What a history says of a stream and of the table, by a walk over its entries.

ghost use Rattle.std.specs.Prelude.{◌≡◌, ◌<◌, ◌≤◌, ◌^◌, length};
ghost use Rattle.std.specs.List.{list_any};
ghost use Rattle.table_model.specs.Streams.{is_one_stream};
ghost use Rattle.table_model.specs.declared.limits.TheConstants.{MAX_ENTRIES as most_entries, MAX_WEIGHT as most_weight};
ghost use Rattle.table_model.specs.History.{is_create as is_create_of, is_session as is_session_of, moment_of, sessions_of, streams_of, entries_by as entries_by_of};
ghost use Rattle.table_model.specs.Content.{rows_onto as rows_onto_of, end_of};
ghost use Rattle.table_model.specs.Facts.{kind_after as kind_after_of, kind_of, creates as creates_of, commits as commits_of, finalises as finalises_of, created_of, committed_of, is_finalised, flushed_after as flushed_after_of, flushed_of, has_stream as has_stream_of, size_added as size_added_of, weight_of};

use super::entries::{Change, Entry};
use super::limits::{COLUMN_OVERHEAD, ROW_OVERHEAD};
use super::streams::{StreamKind, StreamRef};

/// The greatest moment, or 0.
pub(crate) fn latest(entries: &[Entry]) -> i64
    ensures { result ≡ moment_of entries.now }
{
    let mut latest = 0;
    for entry in entries {
        latest = latest.max(entry.moment);
    }
    latest
}

/// The streams that were created.
#[tactic(auto, using(crate::proofs::WalkLemmas::count_more_le))]
pub(crate) fn streams(entries: &[Entry]) -> u32
    requires { length entries.now ≤ most_entries }
    ensures { result ≡ streams_of entries.now }
{
    let mut count = 0;
    for entry in entries {
        if is_create(&entry.change) {
            count += 1;
        }
    }
    count
}

fn is_create(change: &Change) -> bool
    ensures { result ≡ is_create_of change.now }
{
    matches!(change, Change::Create { .. })
}

/// The read sessions that were begun.
#[tactic(auto, using(crate::proofs::WalkLemmas::count_more_le))]
pub(crate) fn sessions(entries: &[Entry]) -> u32
    requires { length entries.now ≤ most_entries }
    ensures { result ≡ sessions_of entries.now }
{
    let mut count = 0;
    for entry in entries {
        if is_session(&entry.change) {
            count += 1;
        }
    }
    count
}

fn is_session(change: &Change) -> bool
    ensures { result ≡ is_session_of change.now }
{
    matches!(change, Change::Session { .. })
}

/// Whether a stream is there.
pub(crate) fn has_stream(entries: &[Entry], stream: StreamRef) -> bool
    requires { length entries.now ≤ most_entries }
    ensures { result ≡ has_stream_of entries.now stream }
{
    match stream {
        StreamRef::Default => true,
        StreamRef::Number(number) => 1 <= number && number <= streams(entries),
        StreamRef::Other => false,
    }
}

/// The entries of this caller.
#[tactic(auto, using(crate::proofs::WalkLemmas::count_more_le))]
pub(crate) fn entries_by(caller: u32, entries: &[Entry]) -> u32
    requires { length entries.now ≤ most_entries }
    ensures { result ≡ entries_by_of caller entries.now }
{
    let mut count = 0;
    for entry in entries {
        if entry.caller == caller {
            count += 1;
        }
    }
    count
}

/// The sum of the sizes of all rows, in a table of this many columns.
#[tactic(auto, using(std::proofs::lemmas::List::Sums::sum_by_more_le))]
pub(crate) fn weight(columns: u32, entries: &[Entry]) -> u64
    requires { weight_of columns entries.now ≤ most_weight }
    ensures { result ≡ weight_of columns entries.now }
{
    let mut weight = 0;
    for entry in entries {
        weight += size_added(columns, &entry.change);
    }
    weight
}

/// What a change adds to the weight of a table of this many columns, which is at most the limit of all rows.
pub fn size_added(columns: u32, change: &Change) -> u64
    requires { size_added_of columns change.now ≤ most_weight }
    ensures { result ≡ size_added_of columns change.now }
{
    match change {
        Change::Append { rows, bytes, .. } => {
            let row = ROW_OVERHEAD + COLUMN_OVERHEAD * u64::from(columns);
            row * rows.len() as u64 + *bytes
        }
        _ => 0,
    }
}

/// The offset of the next row of a stream.
#[tactic(auto, using(crate::proofs::WalkLemmas::end_is_sum, std::proofs::lemmas::List::Sums::sum_by_more_le))]
pub(crate) fn end(entries: &[Entry], stream: StreamRef) -> u64
    requires { end_of entries.now stream < 2 ^ 64 }
    ensures { result ≡ end_of entries.now stream }
{
    let mut end = 0;
    for entry in entries {
        end += rows_onto(stream, &entry.change) as u64;
    }
    end
}

fn rows_onto(stream: StreamRef, change: &Change) -> usize
    ensures { result ≡ length (rows_onto_of stream change.now) }
{
    match change {
        Change::Append {
            stream: on,
            rows,
            ..
        } if stream.is_same(*on) => rows.len(),
        _ => 0,
    }
}

/// The type of a stream.
pub(crate) fn kind(entries: &[Entry], stream: StreamRef) -> StreamKind
    ensures { result ≡ kind_of entries.now stream }
{
    let mut kind = StreamKind::Committed;
    for entry in entries {
        kind = kind_after(stream, kind, &entry.change);
    }
    kind
}

fn kind_after(stream: StreamRef, before: StreamKind, change: &Change) -> StreamKind
    ensures { result ≡ kind_after_of stream before change.now }
{
    match change {
        Change::Create {
            stream: number,
            kind,
        } if stream.is_same(StreamRef::Number(*number)) => *kind,
        _ => before,
    }
}

/// When a stream was created.
pub(crate) fn created(entries: &[Entry], stream: StreamRef) -> Option<i64>
    ensures { result ≡ created_of entries.now stream }
{
    let mut created = None;
    for entry in entries {
        if creates(stream, &entry.change) {
            created = Some(entry.moment);
        }
    }
    created
}

fn creates(stream: StreamRef, change: &Change) -> bool
    ensures { result ≡ creates_of stream change.now }
{
    match change {
        Change::Create { stream: number, .. } => stream.is_same(StreamRef::Number(*number)),
        _ => false,
    }
}

/// When a stream was committed.
pub(crate) fn committed(entries: &[Entry], stream: StreamRef) -> Option<i64>
    ensures { result ≡ committed_of entries.now stream }
{
    let mut committed = None;
    for entry in entries {
        if commits(stream, &entry.change) {
            committed = Some(entry.moment);
        }
    }
    committed
}

fn commits(stream: StreamRef, change: &Change) -> bool
    ensures { result ≡ commits_of stream change.now }
{
    match change {
        Change::Commit { streams } => is_among(stream, streams.as_slice()),
        _ => false,
    }
}

fn is_among(stream: StreamRef, others: &[StreamRef]) -> bool
    ensures { result ≡ list_any (is_one_stream stream) others.now }
{
    others.iter().any(|other| stream.is_same(*other))
}

/// Whether a stream was finalised.
pub(crate) fn finalised(entries: &[Entry], stream: StreamRef) -> bool
    ensures { result ≡ is_finalised entries.now stream }
{
    entries.iter().any(|entry| finalises(stream, &entry.change))
}

fn finalises(stream: StreamRef, change: &Change) -> bool
    ensures { result ≡ finalises_of stream change.now }
{
    match change {
        Change::Finalise { stream: other } => stream.is_same(*other),
        _ => false,
    }
}

/// How many rows of a stream were flushed.
pub(crate) fn flushed(entries: &[Entry], stream: StreamRef) -> u64
    ensures { result ≡ flushed_of entries.now stream }
{
    let mut flushed = 0;
    for entry in entries {
        flushed = flushed_after(stream, flushed, &entry.change);
    }
    flushed
}

fn flushed_after(stream: StreamRef, before: u64, change: &Change) -> u64
    ensures { result ≡ flushed_after_of stream before change.now }
{
    match change {
        Change::Flush {
            stream: other,
            upto,
        } if stream.is_same(*other) => *upto,
        _ => before,
    }
}
