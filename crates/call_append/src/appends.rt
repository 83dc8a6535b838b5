//! The rows of a message, appended to a table.

ghost use Rattle.std.specs.Prelude.{◌≡◌, ◌<◌, ◌^◌, ◌≤ℤ◌, List, length, sum_by, IfOk};
ghost use Rattle.column_types.specs.declared.column.Column.{Column};
ghost use Rattle.row_descriptor.specs.Binding.{IsBoundTo};
ghost use Rattle.table_model.specs.declared.limits.TheConstants.{LATEST_READING};
ghost use Rattle.table_model.specs.Legal.{Takes};
ghost use Rattle.write_msgs.specs.ResponseBytes.{append_rows_response_bytes};
ghost use Rattle.call_append.specs.Asking.{Prepares, to_append, without_rows};
ghost use Rattle.call_append.specs.Message.{Responds, on_asked, on_writer};

use crate::responses::{told, told_without_rows};
use crate::writers::Writer;
use outside::{Blob, Memory};
use row_decode::{RowFault, RowsFault, decode_rows};
use row_descriptor::Binding;
use sqlite_items::Items;
use std::alloc::Global;
use table_engine::Engine;
use table_model::{Command, StreamRef, Why};
use write_msgs::AppendRowsResponse;

/// Who appends, to which write stream, and when.
#[derive(Clone, Copy, Debug, PartialEq, Eq)]
pub struct Asker {
    /// The number under which the table counts the entries.
    pub caller: u32,
    pub stream: StreamRef,
    /// A reading of the clock, in microseconds since 1970-01-01.
    pub now: i64,
}

/// Why a message got no response: an allocation was refused.
#[derive(Clone, Copy, Debug, PartialEq, Eq)]
pub enum NoResponse {
    /// It was refused before the table answered. Nothing was done.
    Undone,
    /// It was refused behind the table's answer. What the message asked is done, and its response is lost.
    Lost,
}

impl From<Memory> for NoResponse {
    ghost use Rattle.std.specs.Prelude.{◌≡◌};
    ghost use Rattle.call_append.specs.declared.appends.NoResponse.TheVariants as none;

    ghost from_gives = { λ _ e. e ≡ none.Undone };

    fn from(_want: Memory) -> NoResponse {
        NoResponse::Undone
    }
}

/// The bytes of all rows.
fn size_of(rows: &[Blob]) -> u64
    requires { sum_by length rows.now < 2 ^ 32 }
    ensures { result ≡ sum_by length rows.now }
{
    rows.iter().map(|row| row.len() as u64).sum()
}

/// The command that appends the rows of a message to a write stream, which together have fewer than 2^32 bytes, as do
/// those before them in the message; or those rows that are refused, at most the first 100.
///
/// A table of the columns that the binding was made for takes the command.
pub fn prepare(
    alloc: Global,
    stream: StreamRef,
    binding: &Binding,
    offset: Option<i64>,
    rows: &[Blob],
) -> Result<Command, RowsFault>
    requires few { length rows.now < 2 ^ 32 }
    requires small { sum_by length rows.now < 2 ^ 32 }
    ensures value { Prepares stream binding.now offset rows.now result }
    ensures taken { (columns : List Column) → IsBoundTo columns binding.now → IfOk result (Takes columns) }
{
    match decode_rows(alloc, binding, rows) {
        Ok(decoded) => Ok(Command::Append {
            stream,
            offset,
            rows: Items::from_vec(decoded),
            bytes: size_of(rows),
        }),
        Err(fault) => Err(fault),
    }
}

/// Appends by a prepared command.
fn append(
    alloc: Global,
    table: &mut Engine,
    asker: Asker,
    command: Command,
) -> Result<AppendRowsResponse, NoResponse>
    requires taken { Takes table.old.columns command }
    requires in_time { asker.now ≤ℤ LATEST_READING }
    ensures outcome { Responds table.old table.new (on_asked asker table.old (to_append command)) result }
    ensures columns { table.new.columns ≡ table.old.columns }
{
    let reply = table.step(alloc, asker.caller, command, asker.now)?;
    match told(alloc, table.schema().columns(), &reply) {
        Ok(response) => Ok(response),
        Err(Memory) => Err(NoResponse::Lost),
    }
}

/// Refuses rows for this cause, with these rows at fault, unless the stream isn't there.
fn refuse(
    alloc: Global,
    table: &mut Engine,
    asker: Asker,
    cause: &Why,
    faults: &[RowFault],
) -> Result<AppendRowsResponse, NoResponse>
    requires in_time { asker.now ≤ℤ LATEST_READING }
    ensures outcome { Responds table.old table.new (on_asked asker table.old (without_rows asker.stream cause.now faults.now)) result }
    ensures columns { table.new.columns ≡ table.old.columns }
{
    let ask = Command::Get {
        stream: asker.stream,
    };
    let reply = table.step(alloc, asker.caller, ask, asker.now)?;
    match told_without_rows(alloc, table.schema().columns(), cause, faults, &reply) {
        Ok(response) => Ok(response),
        Err(Memory) => Err(NoResponse::Lost),
    }
}

/// Appends the rows of a message, which together have fewer than 2^32 bytes, as do those before them in the message.
///
/// The writer schema is one over the table's columns. Where it can't be read by, or a row is refused, the table stays
/// as it was.
pub fn answer_rows(
    alloc: Global,
    table: &mut Engine,
    asker: Asker,
    writer: &Writer,
    offset: Option<i64>,
    rows: &[Blob],
) -> Result<AppendRowsResponse, NoResponse>
    requires bound { IfOk writer.now (IsBoundTo table.old.columns) }
    requires few { length rows.now < 2 ^ 32 }
    requires small { sum_by length rows.now < 2 ^ 32 }
    requires in_time { asker.now ≤ℤ LATEST_READING }
    ensures outcome { Responds table.old table.new (on_writer asker table.old writer.now offset rows.now) result }
    ensures columns { table.new.columns ≡ table.old.columns }
    ensures size { IfOk result (λ response. length (append_rows_response_bytes response) < 2 ^ 32) }
{
    let binding = match writer {
        Ok(binding) => binding,
        Err(cause) => return refuse(alloc, table, asker, cause, &[]),
    };
    match prepare(alloc, asker.stream, binding, offset, rows) {
        Ok(command) => append(alloc, table, asker, command),
        Err(RowsFault::Refused(faults)) => {
            refuse(alloc, table, asker, &Why::BadRows, faults.faults())
        }
        Err(RowsFault::Memory) => Err(NoResponse::Undone),
    }
}
