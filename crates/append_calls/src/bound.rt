//! Writer schemas, bound to the columns of a table.

ghost use Rattle.std.specs.Prelude.{◌≡◌, ◌<◌, ◌^◌, true, length, IfOk, IfSome};
ghost use Rattle.append_calls.specs.Bound.{IsFor};

use call_append::{Writer, bind_writer};
use column_types::{Column, Schema};
use outside::{Blob, Memory};
use std::alloc::Global;
use table_model::Why;
use table_spec::TableSpec;

/// How rows are read by a writer schema, or why none can be, and the columns that it was bound to.
#[derive(Drop)]
pub(crate) struct Bound {
    pub columns: Schema,
    pub writer: Writer,
}

/// Whether two columns are the same. A name in other case is another.
fn is_same(a: &Column, b: &Column) -> bool
    ensures { result ≡ true → a.now ≡ b.now }
{
    a.kind == b.kind && a.mode == b.mode && a.name.text() == b.name.text()
}

/// Whether columns are the same, one by one.
pub(crate) fn are_same(a: &[Column], b: &[Column]) -> bool
    ensures { result ≡ true → a.now ≡ b.now }
{
    if a.len() != b.len() {
        return false;
    }
    for at in 0..a.len() {
        if !is_same(&a[at], &b[at]) {
            return false;
        }
    }
    true
}

/// Binds the writer schema that a call named last, if it named one, to the columns of a table.
pub(crate) fn bind(alloc: Global, spec: &TableSpec, schema: &Option<Blob>) -> Result<Bound, Memory>
    requires small { IfSome schema.now (λ descriptor. length descriptor < 2 ^ 32) }
    ensures { IfOk result (IsFor spec.now.schema schema.now) }
{
    let writer = match schema {
        Some(descriptor) => bind_writer(alloc, &spec.schema, descriptor.bytes())?,
        None => Err(Why::NoSchema),
    };
    Ok(Bound {
        columns: spec.copy_schema(alloc)?,
        writer,
    })
}
