//! The names of write streams.

ghost use Rattle.std.specs.Prelude.{◌≡◌, map, take, drop, IfOk};
ghost use Rattle.std.specs.Option.{option_to_list};
ghost use Rattle.resource_names.specs.Reads.{Reads};
ghost use Rattle.resource_names.specs.Write.{id_of, id_behind, numbered, stream_in, stream_of, write_in, write_name_of, write_text, default_text};

use crate::faults::NameFault;
use crate::numbers::number_of;
use crate::parts::{MAX_NAME_BYTES, is_named, parts_of};
use crate::tables::{TableName, table_in};
use outside::{Memory, Text};
use std::alloc::Global;

/// The words and parts of a table's name.
const TABLE_PARTS: usize = 6;

/// Which write stream of its table a name is.
#[derive(Clone, Copy, Debug, PartialEq, Eq)]
pub enum StreamId {
    /// `_default`: the default stream.
    Default,
    /// `sN`: the stream with this number, from 1, in decimal without a leading zero.
    Number(u32),
    /// Any other id, which no stream has.
    Other,
}

/// The name of a write stream: a table's name and `/streams/S`, or `/_default` for the default stream.
#[derive(Drop)]
pub struct WriteName {
    pub table: TableName,
    pub stream: StreamId,
}

fn numbered(number: Option<u32>) -> StreamId
    ensures { result ≡ numbered number }
{
    match number {
        Some(number) if number != 0 => StreamId::Number(number),
        _ => StreamId::Other,
    }
}

/// The stream whose id is `s` and its number.
fn id_behind(text: &str) -> StreamId
    ensures { result ≡ id_behind text.now }
{
    match text.strip_prefix('s') {
        Some(number) => numbered(number_of(number)),
        None => StreamId::Other,
    }
}

#[tactic(auto, unfolding(crate::specs::Write::id_of))]
fn id_of(text: &str) -> StreamId
    ensures { result ≡ id_of text.now }
{
    if text == "_default" {
        StreamId::Default
    } else {
        id_behind(text)
    }
}

/// The stream that is named behind a table.
fn stream_in(parts: &[&str]) -> Option<StreamId>
    ensures { result ≡ stream_in (map (λ p. p.now) parts.now) }
{
    match parts {
        [last] if *last == "_default" => Some(StreamId::Default),
        [streams, id] if is_named("streams", streams, id) => Some(id_of(id)),
        _ => None,
    }
}

/// The words and parts of a table's name, and those behind them.
fn split_table<'a, 'b>(parts: &'a [&'b str]) -> (&'a [&'b str], &'a [&'b str])
    ensures table { map (λ p. p.now) result.0.now ≡ take 6 (map (λ p. p.now) parts.now) }
    ensures stream { map (λ p. p.now) result.1.now ≡ drop 6 (map (λ p. p.now) parts.now) }
{
    parts.split_at(usize::min(TABLE_PARTS, parts.len()))
}

fn with_stream(table: TableName, stream: Option<StreamId>) -> Result<WriteName, NameFault>
    ensures { Reads (stream_of (Some table) stream) result }
{
    match stream {
        Some(stream) => Ok(WriteName { table, stream }),
        None => Err(NameFault::BadName),
    }
}

/// The write stream that the words and parts of a text name.
fn write_in(alloc: Global, parts: &[&str]) -> Result<WriteName, NameFault>
    ensures { Reads (write_in (map (λ p. p.now) parts.now)) result }
{
    let (table, stream) = split_table(parts);
    match table_in(alloc, table) {
        Ok(table) => with_stream(table, stream_in(stream)),
        Err(fault) => Err(fault),
    }
}

impl WriteName {
    /// Reads the name of a write stream; `BadName` exactly where the text is none.
    pub fn parse(alloc: Global, text: &str) -> Result<WriteName, NameFault>
        ensures { Reads (write_name_of text.now) result }
    {
        if text.len() > MAX_NAME_BYTES {
            return Err(NameFault::BadName);
        }
        let parts = parts_of(alloc, text)?;
        write_in(alloc, parts.as_slice())
    }
}

/// The name of the table's write stream of this number.
pub fn write_text(alloc: Global, table: &TableName, stream: u32) -> Result<Text, Memory>
    ensures { IfOk result (λ text. text ≡ write_text table.now stream) }
{
    let table = table.text(alloc)?;
    let text = format!(in alloc; "{}/streams/s{stream}", table.text())?;
    Ok(Text::from_string(text))
}

/// The name of the table's default stream, in the form with `/streams/`.
pub fn default_text(alloc: Global, table: &TableName) -> Result<Text, Memory>
    ensures { IfOk result (λ text. text ≡ default_text table.now) }
{
    let table = table.text(alloc)?;
    let text = format!(in alloc; "{}/streams/_default", table.text())?;
    Ok(Text::from_string(text))
}
