//! The columns that the restrictions are about.

ghost use Rattle.std.specs.Prelude.{◌≡◌, [], ◌∷◌, ◌++◌, IfOk, OnOk, IfSome};
ghost use Rattle.restriction_answers.specs.Columns.{nullable, the_columns};

use column_types::{Column, Kind, Mode, Schema};
use outside::{Memory, Text};
use std::alloc::Global;

fn push(alloc: Global, columns: &mut Vec<Column>, name: &str, kind: Kind) -> Result<(), Memory>
    ensures { OnOk result (columns.new.items ≡ columns.old.items ++ nullable name.now kind ∷ []) }
{
    columns.push(Column {
        name: Text::of(alloc, name)?,
        kind,
        mode: Mode::Nullable,
    })?;
    Ok(())
}

fn columns(alloc: Global) -> Result<Vec<Column>, Memory>
    ensures { IfOk result (λ columns. columns.items ≡ the_columns) }
{
    let mut columns = Vec::new(alloc);
    push(alloc, &mut columns, "id", Kind::Int64)?;
    push(alloc, &mut columns, "tag", Kind::Str)?;
    push(alloc, &mut columns, "day", Kind::Date)?;
    push(alloc, &mut columns, "at", Kind::Timestamp)?;
    push(alloc, &mut columns, "ok", Kind::Bool)?;
    push(alloc, &mut columns, "raw", Kind::Bytes)?;
    push(alloc, &mut columns, "date", Kind::Str)?;
    Ok(columns)
}

/// `id:INT64,tag:STRING,day:DATE,at:TIMESTAMP,ok:BOOL,raw:BYTES,date:STRING`
pub fn schema(alloc: Global) -> Option<Schema>
    ensures { IfSome result (λ schema. schema ≡ the_columns) }
{
    let columns = columns(alloc).ok()?;
    Schema::of(alloc, columns).ok()
}
