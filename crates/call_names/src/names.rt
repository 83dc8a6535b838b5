//! Names of write streams, and the tables that they name.

ghost use Rattle.std.specs.Prelude.{◌≡◌, ◌<◌, length, IfOk, IfSome};
ghost use Rattle.resource_names.specs.Table.{table_name_of, table_text};
ghost use Rattle.resource_names.specs.Write.{write_name_of};
ghost use Rattle.open_tables.specs.Tables.{specs_of, place_of};
ghost use Rattle.call_plans.specs.Names.{ref_of, stream_text};

use open_tables::Tables;
use outside::{Memory, Text};
use resource_names::{NameFault, StreamId, TableName, WriteName, default_text, write_text};
use std::alloc::Global;
use table_model::StreamRef;

/// The write stream of its table that an id names.
pub fn ref_of(id: StreamId) -> StreamRef
    ensures { result ≡ ref_of id }
{
    match id {
        StreamId::Default => StreamRef::Default,
        StreamId::Number(number) => StreamRef::Number(number),
        StreamId::Other => StreamRef::Other,
    }
}

/// The place of the table of this name, if there is one.
pub fn find(alloc: Global, tables: &Tables, name: &TableName) -> Result<Option<u32>, Memory>
    ensures place { IfOk result (λ place. place ≡ place_of (specs_of tables.now) (table_text name.now)) }
    ensures within { IfOk result (λ place. IfSome place (λ at. at < length tables.now)) }
{
    let text = name.text(alloc)?;
    Ok(tables.find(text.text()))
}

/// The write stream that a text names, if it names one.
pub fn name_of(alloc: Global, text: &str) -> Result<Option<WriteName>, Memory>
    ensures { IfOk result (λ name. name ≡ write_name_of text.now) }
{
    match WriteName::parse(alloc, text) {
        Ok(name) => Ok(Some(name)),
        Err(NameFault::BadName) => Ok(None),
        Err(NameFault::Memory) => Err(Memory),
    }
}

/// The table that a text names, if it names one.
pub fn table_of(alloc: Global, text: &str) -> Result<Option<TableName>, Memory>
    ensures { IfOk result (λ name. name ≡ table_name_of text.now) }
{
    match TableName::parse(alloc, text) {
        Ok(name) => Ok(Some(name)),
        Err(NameFault::BadName) => Ok(None),
        Err(NameFault::Memory) => Err(Memory),
    }
}

/// The name that a reply has for a write stream of a table.
pub fn stream_text(alloc: Global, table: &TableName, id: StreamId) -> Result<Text, Memory>
    ensures { IfOk result (λ text. text ≡ stream_text table.now id) }
{
    match id {
        StreamId::Default => default_text(alloc, table),
        StreamId::Number(number) => write_text(alloc, table, number),
        StreamId::Other => Text::of(alloc, ""),
    }
}
