//! What a table is asked to do.

ghost use Rattle.std.specs.Prelude.{◌≡◌, IfOk};

use super::streams::{Refs, StreamKind, StreamRef};
use column_types::{Fields, Pred, Row};
use outside::Memory;
use sqlite_items::Items;
use std::alloc::Global;

/// Rows, which contracts see as the list of their lists of cells.
pub type Rows = Items<Row>;

/// A command to a table.
#[derive(Drop)]
pub enum Command {
    /// Create a write stream.
    Create {
        kind: StreamKind,
    },
    /// Append rows to a stream, at an offset or at its end. `bytes` is the sum of the lengths of the
    /// serialised rows.
    Append {
        stream: StreamRef,
        offset: Option<i64>,
        rows: Rows,
        bytes: u64,
    },
    /// Show the rows of a BUFFERED stream up to this offset, the row there included.
    Flush {
        stream: StreamRef,
        offset: Option<i64>,
    },
    /// Take no more rows on a stream.
    Finalise {
        stream: StreamRef,
    },
    /// Show the rows of these PENDING streams, all at once.
    Commit {
        streams: Refs,
    },
    /// Tell a stream's type and times.
    Get {
        stream: StreamRef,
    },
    /// Begin a read session over the rows that are visible now or, where a snapshot is given, that were visible at that
    /// moment, in microseconds since 1970-01-01: of these the rows that the restriction keeps, each with the chosen
    /// columns. `count` is how many read streams are asked for; 0 leaves that to the table.
    Session {
        pred: Pred,
        fields: Fields,
        count: i32,
        snapshot: Option<i64>,
    },
    /// Split a read stream of a session in two.
    Split {
        session: u32,
        node: u32,
    },
}

impl Command {
    /// A copy.
    pub fn copy(&self, alloc: Global) -> Result<Command, Memory>
        ensures { IfOk result (λ command. command ≡ self.now) }
    {
        Ok(match self {
            Command::Create { kind } => Command::Create { kind: *kind },
            Command::Append {
                stream,
                offset,
                rows,
                bytes,
            } => Command::Append {
                stream: *stream,
                offset: *offset,
                rows: copy_rows(alloc, rows.as_slice())?,
                bytes: *bytes,
            },
            Command::Flush { stream, offset } => Command::Flush {
                stream: *stream,
                offset: *offset,
            },
            Command::Finalise { stream } => Command::Finalise { stream: *stream },
            Command::Commit { streams } => Command::Commit {
                streams: Refs::from_slice(alloc, streams.as_slice())?,
            },
            Command::Get { stream } => Command::Get { stream: *stream },
            Command::Session {
                pred,
                fields,
                count,
                snapshot,
            } => Command::Session {
                pred: pred.copy(alloc)?,
                fields: fields.copy(alloc)?,
                count: *count,
                snapshot: *snapshot,
            },
            Command::Split { session, node } => Command::Split {
                session: *session,
                node: *node,
            },
        })
    }
}

fn copy_rows(alloc: Global, rows: &[Row]) -> Result<Rows, Memory>
    ensures { IfOk result (λ copy. copy ≡ rows.now) }
{
    let mut copy = Vec::with_capacity(alloc, rows.len())?;
    for row in rows {
        copy.push(row.copy(alloc)?)?;
    }
    Ok(Items::from_vec(copy))
}
