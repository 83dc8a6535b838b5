//! How many rows were visible at a moment, by a walk over a history.

ghost use Rattle.std.specs.Prelude.{◌≡◌, ◌≤◌, ◌<◌, ◌^◌, pos, length, sum_by};
ghost use Rattle.table_model.specs.declared.streams.StreamRef.{StreamRef as StreamName};
ghost use Rattle.table_model.specs.Content.{end_of};
ghost use Rattle.table_model.specs.Fits.{RisesFrom};
ghost use Rattle.table_model.specs.Sessions.{accepted_by as accepted_by_of, visible_by as visible_by_of};
ghost use Rattle.table_model.specs.Visible.{rows_shown, shows_at_once as shows_at_once_of, visible_of};

use super::entries::{Change, Entry};
use super::streams::{StreamKind, StreamRef};
use super::walks::{end, flushed, kind};

/// How many rows were visible at a moment, in microseconds since 1970-01-01.
pub(crate) fn visible_by(entries: &[Entry], moment: i64) -> u64
    requires rises { RisesFrom (pos 0) entries.now }
    requires ends { (stream : StreamName) → end_of entries.now stream < 2 ^ 64 }
    requires shown { length (visible_of entries.now) < 2 ^ 64 }
    ensures { result ≡ visible_by_of entries.now moment }
{
    let mut count = 0;
    for i in 0..accepted_by(entries, moment) {
        count += shown(&entries[..i], &entries[i].change);
    }
    count
}

// How many entries were accepted by a moment.
#[tactic(auto, using(crate::proofs::VisibleWalkLemmas::accepted_few))]
fn accepted_by(entries: &[Entry], moment: i64) -> usize
    ensures value { result ≡ length (accepted_by_of entries.now moment) }
    ensures within { result ≤ length entries.now }
{
    entries
        .iter()
        .filter(|entry| entry.moment <= moment)
        .count()
}

// How many rows a change makes visible.
fn shown(before: &[Entry], change: &Change) -> u64
    requires ends { (stream : StreamName) → end_of before.now stream < 2 ^ 64 }
    requires few { length (rows_shown before.now change.now) < 2 ^ 64 }
    ensures { result ≡ length (rows_shown before.now change.now) }
{
    match change {
        Change::Append { stream, rows, .. } if shows_at_once(before, *stream) => rows.len() as u64,
        Change::Flush { stream, upto } => {
            let end = end(before, *stream);
            end.min(*upto).saturating_sub(flushed(before, *stream))
        }
        Change::Commit { streams } => ends(before, streams.as_slice()),
        _ => 0,
    }
}

// Whether rows of a stream are visible once they are appended.
fn shows_at_once(before: &[Entry], stream: StreamRef) -> bool
    ensures { result ≡ shows_at_once_of before.now stream }
{
    match stream {
        StreamRef::Default => true,
        _ => matches!(kind(before, stream), StreamKind::Committed),
    }
}

// How many rows some streams have, in sum.
#[tactic(auto, using(std::proofs::lemmas::List::Sums::sum_by_more_le))]
fn ends(before: &[Entry], streams: &[StreamRef]) -> u64
    requires ends { (stream : StreamName) → end_of before.now stream < 2 ^ 64 }
    requires few { sum_by (end_of before.now) streams.now < 2 ^ 64 }
    ensures { result ≡ sum_by (end_of before.now) streams.now }
{
    let mut count = 0;
    for stream in streams {
        count += end(before, *stream);
    }
    count
}
