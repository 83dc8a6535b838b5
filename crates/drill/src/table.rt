//! The drill's table, and the session that is drained at its end.

ghost use Rattle.std.specs.Prelude.{◌≡◌, [], IfOk};
ghost use Rattle.table_model.specs.Legal.{Takes};
ghost use Rattle.turn_table.specs.View.{IsOf};
ghost use Rattle.drill.specs.Table.{columns, last_session, restriction, IsDrill};

use column_types::{Cell, Column, Fields, Kind, Mode, Op, Pred, Schema};
use outside::{Memory, Text};
use sqlite_items::Boxed;
use std::alloc::Global;
use table_engine::Engine;
use table_model::Command;
use turn_table::{Pass, Turn};

/// The number of the column `id`, which is an INT64 and REQUIRED.
const ID: u32 = 0;

/// The number of the column `tag`, which is a STRING and NULLABLE.
const TAG: u32 = 1;

/// How many read streams the last session asks for.
const STREAMS: i32 = 4;

/// The first id that no row of the first writer has.
const ID_BOUND: i64 = 1_000_000;

/// The columns `id:INT64:REQUIRED` and `tag:STRING`.
fn columns(alloc: Global) -> Result<Vec<Column>, Memory>
    ensures { IfOk result (λ made. made.items ≡ columns) }
{
    let mut columns = Vec::with_capacity(alloc, 2)?;
    columns.push(Column {
        name: Text::of(alloc, "id")?,
        kind: Kind::Int64,
        mode: Mode::Required,
    })?;
    columns.push(Column {
        name: Text::of(alloc, "tag")?,
        kind: Kind::Str,
        mode: Mode::Nullable,
    })?;
    Ok(columns)
}

/// The schema of the drill's table. Its columns are a schema, so that no fault comes but want of memory.
fn schema(alloc: Global) -> Result<Schema, Memory>
    ensures { IfOk result (λ schema. schema ≡ columns) }
{
    match Schema::of(alloc, columns(alloc)?) {
        Ok(schema) => Ok(schema),
        Err(_fault) => Err(Memory),
    }
}

/// The drill's table without an entry, and the first pass to it.
pub(crate) fn open(alloc: Global) -> Result<(Turn<Engine>, Pass<Engine>), Memory>
    ensures turn { IfOk result (λ both. IsDrill both.0) }
    ensures theirs { IfOk result (λ both. IsOf both.0 both.1) }
{
    let engine = Engine::new(alloc, schema(alloc)?)?;
    Turn::new(alloc, engine)
}

/// The restriction `tag IS NULL OR id < 1000000`.
fn restriction(alloc: Global) -> Result<Pred, Memory>
    ensures { IfOk result (λ pred. pred ≡ restriction) }
{
    let no_tag = Pred::IsNull { column: TAG };
    let low_id = Pred::Compare {
        column: ID,
        op: Op::Lt,
        value: Cell::Int(ID_BOUND),
    };
    Ok(Pred::Or(Boxed::new(alloc, no_tag)?, Boxed::new(alloc, low_id)?))
}

/// The command that begins the session: it has the restriction, all columns, and asks for 4 read streams.
pub(crate) fn last_session(alloc: Global) -> Result<Command, Memory>
    ensures { IfOk result (λ command. command ≡ last_session) }
{
    Ok(Command::Session {
        pred: restriction(alloc)?,
        fields: Fields::all(alloc, &schema(alloc)?)?,
        count: STREAMS,
        snapshot: None,
    })
}
