//! The columns of a table as a TableSchema.

ghost use Rattle.std.specs.Prelude.{◌≡◌, map, IfOk};
ghost use Rattle.call_plans.specs.Columns.{type_code, mode_code, schema_of};
ghost use Rattle.call_read.specs.Lines.{line_of};

use column_types::{Column, Kind, Mode};
use outside::{Memory, Text};
use schema_msgs::{NestedField, TableFieldSchemas, TableSchema};
use std::alloc::Global;

fn type_code(kind: Kind) -> i32
    ensures { result ≡ type_code kind }
{
    match kind {
        Kind::Str => 1,
        Kind::Int64 => 2,
        Kind::Bytes => 5,
        Kind::Bool => 6,
        Kind::Timestamp => 7,
        Kind::Date => 8,
    }
}

fn mode_code(mode: Mode) -> i32
    ensures { result ≡ mode_code mode }
{
    match mode {
        Mode::Nullable => 1,
        Mode::Required => 2,
    }
}

fn line_of(alloc: Global, column: &Column) -> Result<NestedField, Memory>
    ensures { IfOk result (λ line. line ≡ line_of column.now) }
{
    Ok(NestedField {
        depth: 0,
        name: Text::of(alloc, column.name.text())?,
        column_type: type_code(column.kind),
        mode: mode_code(column.mode),
    })
}

fn lines_of(alloc: Global, columns: &[Column]) -> Result<Vec<NestedField>, Memory>
    ensures { IfOk result (λ lines. lines.items ≡ map line_of columns.now) }
{
    let mut lines = Vec::with_capacity(alloc, columns.len())?;
    for column in columns {
        lines.push(line_of(alloc, column)?)?;
    }
    Ok(lines)
}

/// The schema of a table of these columns.
pub(crate) fn schema_of(alloc: Global, columns: &[Column]) -> Result<TableSchema, Memory>
    ensures { IfOk result (λ schema. schema ≡ schema_of columns.now) }
{
    let lines = lines_of(alloc, columns)?;
    let fields = TableFieldSchemas::from_vec(lines);
    Ok(TableSchema { fields })
}
