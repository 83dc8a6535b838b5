//! The columns of a SPEC.

ghost use Rattle.std.specs.Prelude.{◌≡◌, map};
ghost use Rattle.table_spec.specs.Columns.{all_of, column_from, column_of, columns_of, kind_of, mode_of, named};
ghost use Rattle.table_spec.specs.Spec.{ReadsPart};

use crate::parts::parts;
use crate::spec::SpecFault;
use column_types::{Column, Kind, Mode};
use outside::Text;
use std::alloc::Global;

fn kind_of(text: &str) -> Option<Kind>
    ensures { result ≡ kind_of text.now }
{
    match text {
        "INT64" => Some(Kind::Int64),
        "BOOL" => Some(Kind::Bool),
        "STRING" => Some(Kind::Str),
        "BYTES" => Some(Kind::Bytes),
        "DATE" => Some(Kind::Date),
        "TIMESTAMP" => Some(Kind::Timestamp),
        _ => None,
    }
}

fn mode_of(text: &str) -> Option<Mode>
    ensures { result ≡ mode_of text.now }
{
    match text {
        "NULLABLE" => Some(Mode::Nullable),
        "REQUIRED" => Some(Mode::Required),
        _ => None,
    }
}

/// The column of this name, kind and mode.
fn column(
    alloc: Global,
    name: &str,
    kind: Option<Kind>,
    mode: Option<Mode>,
) -> Result<Column, SpecFault>
    ensures { ReadsPart (λ column. column) result (named name.now kind mode) }
{
    let (Some(kind), Some(mode)) = (kind, mode) else {
        return Err(SpecFault::NoSpec);
    };
    Ok(Column {
        name: Text::of(alloc, name)?,
        kind,
        mode,
    })
}

/// A column of these parts: `name:KIND` or `name:KIND:MODE`.
fn column_from(alloc: Global, parts: &[&str]) -> Result<Column, SpecFault>
    ensures { ReadsPart (λ column. column) result (column_from (map (λ p. p.now) parts.now)) }
{
    match parts {
        [name, kind] => column(alloc, name, kind_of(kind), Some(Mode::Nullable)),
        [name, kind, mode] => column(alloc, name, kind_of(kind), mode_of(mode)),
        _ => Err(SpecFault::NoSpec),
    }
}

fn column_of(alloc: Global, text: &str) -> Result<Column, SpecFault>
    ensures { ReadsPart (λ column. column) result (column_of text.now) }
{
    let parts = parts(alloc, text, ':')?;
    column_from(alloc, parts.as_slice())
}

/// The columns of these texts.
fn all_columns(alloc: Global, texts: &[&str]) -> Result<Vec<Column>, SpecFault>
    ensures { ReadsPart (λ columns. columns.items) result (all_of (map column_of (map (λ p. p.now) texts.now))) }
{
    let mut columns = Vec::with_capacity(alloc, texts.len())?;
    for text in texts {
        columns.push(column_of(alloc, text)?)?;
    }
    Ok(columns)
}

/// Columns, with commas between them.
pub(crate) fn columns_of(alloc: Global, text: &str) -> Result<Vec<Column>, SpecFault>
    ensures { ReadsPart (λ columns. columns.items) result (columns_of text.now) }
{
    let parts = parts(alloc, text, ',')?;
    all_columns(alloc, parts.as_slice())
}
