//! Reads of a session's nodes.

use crate::stop::Stop;
use crate::told::{refusal_text, rows_text};
use column_types::{Cell, Row};
use read_cursor::{Chunk, Cursor, Found, Lease};
use std::alloc::Global;
use table_engine::{Engine, Held, Key};
use table_model::{Plain, Refusal, SESSION_LIFETIME, Sessions, Why, read_check};

/// A node's interval, and until when it can be read.
fn node_text(alloc: Global, from: u64, upto: u64, expires: i64) -> Result<String, Stop> {
    Ok(format!(in alloc; "[{from},{upto}) until {expires}")?)
}

/// The moment of the plain table's history.
fn latest(table: &Plain) -> i64 {
    match table.entries().last() {
        Some(entry) => entry.moment,
        None => 0,
    }
}

/// What the plain table tells of a node.
pub(crate) fn plain_reads(
    alloc: Global,
    table: &Plain,
    key: Key,
    now: i64,
) -> Result<String, Stop> {
    let found = table.node(alloc, key.session, key.node)?;
    match read_check(found, now.max(latest(table))) {
        Ok(state) => {
            let interval = state.node.interval;
            let expires = state.moment.saturating_add(SESSION_LIFETIME);
            node_text(alloc, interval.from, interval.upto, expires)
        }
        Err(refusal) => refusal_text(alloc, &refusal),
    }
}

/// What is told of a node that isn't read, and no rows.
fn refused(alloc: Global, why: Why) -> Result<(String, String), Stop> {
    let told = refusal_text(alloc, &Refusal::of(why))?;
    Ok((told, String::new(alloc)))
}

/// What the engine tells of a node, and its rows from an offset on.
pub(crate) fn engine_reads(
    alloc: Global,
    table: &Engine,
    key: Key,
    now: i64,
    offset: u32,
) -> Result<(String, String), Stop> {
    let Some(held) = table.look(&key)? else {
        return refused(alloc, Why::NoRead);
    };
    let Held {
        lease,
        expires,
        moment,
    } = held;
    if expires <= now.max(moment) {
        return refused(alloc, Why::Expired);
    }
    let told = node_text(alloc, lease.lo(), lease.hi(), expires)?;
    let rows = matching(alloc, Cursor::new(lease, u64::from(offset)))?;
    Ok((told, rows))
}

/// The rows that a cursor gives.
pub(crate) fn matching(alloc: Global, mut cursor: Cursor) -> Result<String, Stop> {
    let mut told = String::from_str(alloc, ":")?;
    for _ in 0..u32::MAX {
        match cursor.next_chunk(alloc)? {
            Chunk::Rows { rows, .. } => {
                told.push_str(rows_text(alloc, rows.as_slice())?.as_str())?;
            }
            Chunk::End => return Ok(told),
            Chunk::PastEnd { matched } => {
                return Ok(format!(in alloc; ": past the end, matched {matched}")?);
            }
        }
    }
    Ok(told)
}

/// Whether a row's first cell is this id.
fn has_id(row: &Row, id: u64) -> bool {
    match row.cells().first() {
        Some(Cell::Int(value)) => u64::try_from(*value).ok() == Some(id),
        _ => false,
    }
}

/// How many rows of a lease of all rows stand in order, with ids from 0 on.
pub(crate) fn in_order(lease: Lease) -> u64 {
    let mut cursor = Cursor::new(lease, 0);
    let mut id = 0u64;
    for _ in 0..u32::MAX {
        let Found::Row(place) = cursor.next_place() else {
            return id;
        };
        if !has_id(cursor.row(place), id) {
            return id;
        }
        id = id.wrapping_add(1);
    }
    id
}
