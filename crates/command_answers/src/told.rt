//! What is told of replies, entries and rows.

use crate::stop::Stop;
use column_types::{Cell, Row};
use std::alloc::Global;
use table_model::{Change, Entry, Refusal, Reply, StreamError, StreamKind, StreamRef};

fn kind_text(kind: StreamKind) -> &'static str {
    match kind {
        StreamKind::Committed => "COMMITTED",
        StreamKind::Pending => "PENDING",
        StreamKind::Buffered => "BUFFERED",
    }
}

fn stream_text(alloc: Global, stream: StreamRef) -> Result<String, Stop> {
    Ok(match stream {
        StreamRef::Default => String::from_str(alloc, "default")?,
        StreamRef::Other => String::from_str(alloc, "other")?,
        StreamRef::Number(number) => format!(in alloc; "{number}")?,
    })
}

/// A moment, or `-` for none.
fn moment_text(alloc: Global, moment: Option<i64>) -> Result<String, Stop> {
    Ok(match moment {
        Some(moment) => format!(in alloc; "{moment}")?,
        None => String::from_str(alloc, "-")?,
    })
}

fn streams_text(alloc: Global, streams: &[StreamRef]) -> Result<String, Stop> {
    let mut text = String::new(alloc);
    for stream in streams {
        text.push_str(" ")?;
        text.push_str(stream_text(alloc, *stream)?.as_str())?;
    }
    Ok(text)
}

fn errors_text(alloc: Global, errors: &[StreamError]) -> Result<String, Stop> {
    let mut text = String::from_str(alloc, "not committed")?;
    for error in errors {
        let one = format!(in alloc; " {}:{}", error.place, error.code)?;
        text.push_str(one.as_str())?;
    }
    Ok(text)
}

/// `ID` or `ID:TAG`; a row without its first column begins with the colon.
fn row_text(alloc: Global, row: &Row) -> Result<String, Stop> {
    let mut text = String::new(alloc);
    for cell in row.cells() {
        match cell {
            Cell::Int(id) => text.push_str(format!(in alloc; "{id}")?.as_str())?,
            Cell::Str(tag) => {
                text.push_str(":")?;
                text.push_str(tag.text())?;
            }
            _ => {}
        }
    }
    Ok(text)
}

/// Rows, each behind a blank.
pub(crate) fn rows_text(alloc: Global, rows: &[Row]) -> Result<String, Stop> {
    let mut text = String::new(alloc);
    for row in rows {
        text.push_str(" ")?;
        text.push_str(row_text(alloc, row)?.as_str())?;
    }
    Ok(text)
}

pub(crate) fn refusal_text(alloc: Global, refusal: &Refusal) -> Result<String, Stop> {
    Ok(format!(in alloc; "refused {} {}", refusal.code, refusal.why.phrase())?)
}

/// A reply.
pub(crate) fn reply_text(alloc: Global, reply: &Reply) -> Result<String, Stop> {
    Ok(match reply {
        Reply::Created { stream, moment } => format!(in alloc; "stream {stream} at {moment}")?,
        Reply::Appended { offset: Some(at) } => format!(in alloc; "offset {at}")?,
        Reply::Appended { offset: None } => String::from_str(alloc, "appended")?,
        Reply::Flushed { offset } => format!(in alloc; "flushed {offset}")?,
        Reply::Finalised { rows } => format!(in alloc; "finalised {rows}")?,
        Reply::Committed { moment } => format!(in alloc; "committed at {moment}")?,
        Reply::NotCommitted { errors } => errors_text(alloc, errors.as_slice())?,
        Reply::Stream {
            kind,
            created,
            committed,
        } => {
            let created = moment_text(alloc, *created)?;
            let committed = moment_text(alloc, *committed)?;
            format!(in alloc; "{} {created} {committed}", kind_text(*kind))?
        }
        Reply::Session {
            session,
            roots,
            expires,
        } => format!(in alloc; "session {session} roots {roots} until {expires}")?,
        Reply::Children { left, right } => format!(in alloc; "children {left} {right}")?,
        Reply::NoSplit => String::from_str(alloc, "no children")?,
        Reply::Refused(refusal) => refusal_text(alloc, refusal)?,
    })
}

/// What an entry changes, but for a session's restriction.
fn change_text(alloc: Global, change: &Change) -> Result<String, Stop> {
    Ok(match change {
        Change::Create { stream, kind } => {
            format!(in alloc; "create {stream} {}", kind_text(*kind))?
        }
        Change::Append {
            stream,
            offset,
            rows,
            bytes,
        } => {
            let stream = stream_text(alloc, *stream)?;
            let rows = rows_text(alloc, rows.as_slice())?;
            format!(in alloc; "append {stream} {offset} bytes {bytes}{rows}")?
        }
        Change::Flush { stream, upto } => {
            format!(in alloc; "flush {} {upto}", stream_text(alloc, *stream)?)?
        }
        Change::Finalise { stream } => {
            format!(in alloc; "finalise {}", stream_text(alloc, *stream)?)?
        }
        Change::Commit { streams } => {
            format!(in alloc; "commit{}", streams_text(alloc, streams.as_slice())?)?
        }
        Change::Session {
            session,
            at,
            roots,
            ..
        } => format!(in alloc; "session {session} at {at} roots {roots}")?,
        Change::Split {
            session,
            node,
            left,
            right,
        } => format!(in alloc; "split {session} {node} {left} {right}")?,
    })
}

/// An entry: whose it is, the count of its caller's earlier ones, its moment, and what it changes.
fn entry_text(alloc: Global, entry: &Entry) -> Result<String, Stop> {
    let change = change_text(alloc, &entry.change)?;
    Ok(format!(in alloc;
        "{}@{} {} {change}",
        entry.moment, entry.caller, entry.number
    )?)
}

/// Entries, a line each.
pub(crate) fn entries_text(alloc: Global, entries: &[Entry]) -> Result<String, Stop> {
    let mut text = format!(in alloc; "{} entries", entries.len())?;
    for entry in entries {
        text.push_str("\n  ")?;
        text.push_str(entry_text(alloc, entry)?.as_str())?;
    }
    Ok(text)
}
