//! What a command on a write stream is answered by what is known of the stream.

ghost use Rattle.std.specs.Prelude.{◌≡◌};
ghost use Rattle.table_model.specs.Sessions.{is_expired as is_expired_of};
ghost use Rattle.table_model.specs.Checks.{append_check as append_check_of, finalise_check as finalise_check_of, flush_check as flush_check_of, get_check as get_check_of, read_check as read_check_of, stream_code as stream_code_of};

use super::limits::SESSION_LIFETIME;
use super::offsets::offset_refusal;
use super::reasons::{Refusal, Why};
use super::replies::{
    INVALID_STREAM_STATE, INVALID_STREAM_TYPE, STREAM_ALREADY_COMMITTED, STREAM_NOT_FOUND,
};
use super::sessions::ReadNode;
use super::streams::{StreamRef, StreamState};

/// How far a flush goes: from the flushed count to the greater of it and the count that is asked.
#[derive(Clone, Copy, Debug, PartialEq, Eq)]
pub struct FlushMove {
    pub from: u64,
    pub upto: u64,
}

/// With how many rows a stream is finalised, and whether it was before.
#[derive(Clone, Copy, Debug, PartialEq, Eq)]
pub struct FinalMove {
    pub rows: u64,
    pub already: bool,
}

/// The offset at which an append of this many rows stands.
///
/// Refused, in this order: `NoStream`, `NoRows`, `DefaultOffset`, `NegativeOffset`,
/// `AlreadyWritten`, `PastEnd`, `Finalised`.
pub fn append_check(
    stream: StreamRef,
    state: Option<StreamState>,
    offset: Option<i64>,
    count: usize,
) -> Result<u64, Refusal>
    ensures { result ≡ append_check_of stream state offset count }
{
    let Some(state) = state else {
        return Err(Refusal::of(Why::NoStream));
    };
    if count == 0 {
        return Err(Refusal::of(Why::NoRows));
    }
    if stream.is_default() && offset.is_some() {
        return Err(Refusal::of(Why::DefaultOffset));
    }
    if let Some(why) = offset_refusal(state.rows, offset) {
        return Err(Refusal::of(why));
    }
    if state.finalised {
        return Err(Refusal::of(Why::Finalised));
    }
    Ok(state.rows)
}

/// How far a flush up to this offset goes, the row there included. A finalised stream may be
/// flushed.
///
/// Refused, in this order: `NoStream`, `WrongKind` where the stream isn't BUFFERED, `NoOffset`,
/// `NegativeOffset`, `PastEnd` at the end and past it.
pub fn flush_check(state: Option<StreamState>, offset: Option<i64>) -> Result<FlushMove, Refusal>
    ensures { result ≡ flush_check_of state offset }
{
    let Some(state) = state else {
        return Err(Refusal::of(Why::NoStream));
    };
    if !state.kind.is_buffered() {
        return Err(Refusal::of(Why::WrongKind));
    }
    let Some(offset) = offset else {
        return Err(Refusal::of(Why::NoOffset));
    };
    if offset < 0 {
        return Err(Refusal::of(Why::NegativeOffset));
    }
    let offset = offset as u64;
    if offset >= state.rows {
        return Err(Refusal::of(Why::PastEnd));
    }
    Ok(FlushMove {
        from: state.flushed,
        upto: state.flushed.max(offset + 1),
    })
}

/// With how many rows a stream is finalised, and whether it was before.
///
/// Refused, in this order: `NoStream`, `WrongKind` on the default stream.
pub fn finalise_check(stream: StreamRef, state: Option<StreamState>) -> Result<FinalMove, Refusal>
    ensures { result ≡ finalise_check_of stream state }
{
    let Some(state) = state else {
        return Err(Refusal::of(Why::NoStream));
    };
    if stream.is_default() {
        return Err(Refusal::of(Why::WrongKind));
    }
    Ok(FinalMove {
        rows: state.rows,
        already: state.finalised,
    })
}

/// What is known of a stream. Refused: `NoStream`.
pub fn get_check(state: Option<StreamState>) -> Result<StreamState, Refusal>
    ensures { result ≡ get_check_of state }
{
    match state {
        Some(state) => Ok(state),
        None => Err(Refusal::of(Why::NoStream)),
    }
}

/// Why a stream can't be committed: the code of the first of [`STREAM_NOT_FOUND`],
/// [`INVALID_STREAM_TYPE`], [`STREAM_ALREADY_COMMITTED`] and [`INVALID_STREAM_STATE`] that holds.
pub fn stream_code(state: Option<StreamState>) -> Option<u32>
    ensures { result ≡ stream_code_of state }
{
    let Some(state) = state else {
        return Some(STREAM_NOT_FOUND);
    };
    if !state.kind.is_pending() {
        return Some(INVALID_STREAM_TYPE);
    }
    if state.committed.is_some() {
        return Some(STREAM_ALREADY_COMMITTED);
    }
    if !state.finalised {
        return Some(INVALID_STREAM_STATE);
    }
    None
}

/// Whether a session that was begun at this moment has expired; both in microseconds since 1970-01-01.
pub fn is_expired(moment: i64, now: i64) -> bool
    ensures { result ≡ is_expired_of moment now }
{
    match moment.checked_add(SESSION_LIFETIME) {
        Some(expiry) => expiry <= now,
        None => false,
    }
}

/// What is known of a node of a session that can still be read and split. `now` is the greater of the clock's reading and
/// the moment of the history.
///
/// Refused, in this order: `NoRead` where there is no such node, `Expired`.
pub fn read_check(found: Option<ReadNode>, now: i64) -> Result<ReadNode, Refusal>
    ensures { result ≡ read_check_of found now }
{
    let Some(state) = found else {
        return Err(Refusal::of(Why::NoRead));
    };
    if is_expired(state.moment, now) {
        return Err(Refusal::of(Why::Expired));
    }
    Ok(state)
}
