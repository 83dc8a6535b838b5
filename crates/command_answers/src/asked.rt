//! The command of a line.

ghost use Rattle.std.specs.Prelude.{IfOk};
ghost use Rattle.column_types.specs.Fields.{IsMadeFor};
ghost use Rattle.column_types.specs.Typed.{IsTyped};
ghost use Rattle.table_model.specs.Legal.{Takes};

use crate::rows::{Batch, all_fit, rows_in};
use crate::stop::Stop;
use crate::words::{cut, kind_in, number_in, number_or_none, stream_in};
use column_types::{Fields, FieldsFault, Pred, Schema};
use filter::{FilterFault, parse_restriction};
use outside::Text;
use std::alloc::Global;
use table_model::{Command, Refs, Rows, StreamRef};

/// A commit names fewer streams.
const TOO_MANY: usize = 4_294_967_296;

/// An append of rows.
pub(crate) fn append_of(
    schema: &Schema,
    stream: StreamRef,
    offset: Option<i64>,
    batch: Batch,
) -> Result<Command, Stop>
    ensures { IfOk result (Takes schema.now) }
{
    if !all_fit(schema, batch.rows.as_slice()) {
        return Err(Stop::Unread);
    }
    Ok(Command::Append {
        stream,
        offset,
        bytes: batch.bytes,
        rows: Rows::from_vec(batch.rows),
    })
}

/// `STREAM OFFSET ROW ..`
fn append_in(alloc: Global, schema: &Schema, text: &str) -> Result<Command, Stop>
    ensures { IfOk result (Takes schema.now) }
{
    let (stream, rest) = cut(text);
    let (offset, rest) = cut(rest);
    let batch = rows_in(alloc, rest)?;
    append_of(schema, stream_in(stream)?, number_or_none(offset)?, batch)
}

/// `STREAM ..`
fn commit_in(alloc: Global, schema: &Schema, text: &str) -> Result<Command, Stop>
    ensures { IfOk result (Takes schema.now) }
{
    let mut streams = Vec::new(alloc);
    for word in text.split(' ') {
        if !word.is_empty() {
            streams.push(stream_in(word)?)?;
        }
    }
    if streams.len() >= TOO_MANY {
        return Err(Stop::Unread);
    }
    Ok(Command::Commit {
        streams: Refs::from_vec(streams),
    })
}

/// Columns by their names with commas between, or `*`.
fn fields_in(alloc: Global, schema: &Schema, text: &str) -> Result<Fields, Stop>
    ensures { IfOk result (IsMadeFor schema.now) }
{
    let mut names = Vec::new(alloc);
    for name in text.split(',') {
        if name != "*" {
            names.push(Text::of(alloc, name)?)?;
        }
    }
    match Fields::of(alloc, schema, names.as_slice()) {
        Ok(fields) => Ok(fields),
        Err(FieldsFault::Memory) => Err(Stop::Memory),
        Err(_) => Err(Stop::Unread),
    }
}

fn restriction_in(alloc: Global, schema: &Schema, text: &str) -> Result<Pred, Stop>
    ensures { IfOk result (IsTyped schema.now) }
{
    match parse_restriction(alloc, text, schema) {
        Ok(pred) => Ok(pred),
        Err(FilterFault::Memory) => Err(Stop::Memory),
        Err(_) => Err(Stop::Unread),
    }
}

/// A session of one node, over all columns of the rows that are visible.
pub(crate) fn session_of(alloc: Global, schema: &Schema, text: &str) -> Result<Command, Stop>
    ensures { IfOk result (Takes schema.now) }
{
    Ok(Command::Session {
        pred: restriction_in(alloc, schema, text)?,
        fields: Fields::all(alloc, schema)?,
        count: 1,
        snapshot: None,
    })
}

/// `COUNT SNAPSHOT COLUMNS RESTRICTION`
fn session_in(alloc: Global, schema: &Schema, text: &str) -> Result<Command, Stop>
    ensures { IfOk result (Takes schema.now) }
{
    let (count, rest) = cut(text);
    let (snapshot, rest) = cut(rest);
    let (columns, rest) = cut(rest);
    let Ok(count) = count.parse::<i32>() else {
        return Err(Stop::Unread);
    };
    Ok(Command::Session {
        pred: restriction_in(alloc, schema, rest)?,
        fields: fields_in(alloc, schema, columns)?,
        count,
        snapshot: number_or_none(snapshot)?,
    })
}

/// The command of a text, which a table with these columns takes.
pub(crate) fn command_in(alloc: Global, schema: &Schema, text: &str) -> Result<Command, Stop>
    ensures { IfOk result (Takes schema.now) }
{
    let (verb, rest) = cut(text);
    let (first, second) = cut(rest);
    match verb {
        "append" => append_in(alloc, schema, rest),
        "commit" => commit_in(alloc, schema, rest),
        "session" => session_in(alloc, schema, rest),
        _ => plain_in(schema, verb, first, second),
    }
}

/// `create KIND`, `flush STREAM OFFSET`, `finalise STREAM`, `get STREAM` or `split SESSION NODE`.
fn plain_in(schema: &Schema, verb: &str, first: &str, second: &str) -> Result<Command, Stop>
    ensures { IfOk result (Takes schema.now) }
{
    Ok(match verb {
        "create" => Command::Create {
            kind: kind_in(first)?,
        },
        "flush" => Command::Flush {
            stream: stream_in(first)?,
            offset: number_or_none(second)?,
        },
        "finalise" => Command::Finalise {
            stream: stream_in(first)?,
        },
        "get" => Command::Get {
            stream: stream_in(first)?,
        },
        "split" => Command::Split {
            session: number_in(first)?,
            node: number_in(second)?,
        },
        _ => return Err(Stop::Unread),
    })
}
