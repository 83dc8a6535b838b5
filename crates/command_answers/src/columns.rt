//! The columns of the tables.

use crate::stop::Stop;
use column_types::{Column, Kind, Mode, Schema};
use outside::Text;
use std::alloc::Global;

/// `id:INT64:REQUIRED,tag:STRING`
pub(crate) fn schema(alloc: Global) -> Result<Schema, Stop> {
    let mut columns = Vec::new(alloc);
    columns.push(Column {
        name: Text::of(alloc, "id")?,
        kind: Kind::Int64,
        mode: Mode::Required,
    })?;
    columns.push(Column {
        name: Text::of(alloc, "tag")?,
        kind: Kind::Str,
        mode: Mode::Nullable,
    })?;
    Schema::of(alloc, columns).or(Err(Stop::Unread))
}
