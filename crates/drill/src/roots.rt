//! A session of a closed table, read from its roots.

ghost use Rattle.std.specs.Prelude.{◌≡◌, ◌+◌, ◌<◌, None, Some, IfOk, IfSome};
ghost use Rattle.table_model.specs.Legal.{IsLegal};
ghost use Rattle.table_model.specs.Sessions.{session_of};
ghost use Rattle.drill.specs.Drains.{session_rows};
ghost use Rattle.drill.specs.Roots.{HasRead, roots_in};

use crate::drain_reads::read_rest;
use outside::Memory;
use sqlite_items::Items;
use std::alloc::Global;
use table_engine::{Engine, Held, Key};
use table_model::Rows;

/// The number of a session's roots; 0 where there is no such session.
fn roots_of(table: &Engine, session: u32) -> Result<u32, Memory>
    requires { IsLegal table.now.columns table.now.entries }
    ensures { IfOk result (λ roots. roots ≡ roots_in (session_of table.now.entries session)) }
{
    let first = Key { session, node: 0 };
    match table.look(&first)? {
        Some(held) => Ok(held.lease.roots()),
        None => Ok(0),
    }
}

/// What is held of a node that is there.
fn held_of(told: Option<Held>) -> Held
    requires { told ≡ None → ⊥ }
    ensures { told ≡ Some result }
{
    match told {
        Some(held) => held,
        None => unreachable!(),
    }
}

/// Reads the rows of a root behind those of the roots before it.
fn read_root(
    alloc: Global,
    table: &Engine,
    session: u32,
    node: u32,
    rows: Rows,
) -> Result<Rows, Memory>
    requires legal { IsLegal table.now.columns table.now.entries }
    requires root { node < roots_in (session_of table.now.entries session) }
    requires read { HasRead table.now.entries session node rows }
    ensures { IfOk result (HasRead table.now.entries session (node + 1)) }
{
    let key = Key { session, node };
    let told = table.look(&key)?;
    let held = held_of(told);
    let first = Vec::new(alloc);
    let mut rows = rows;
    read_rest(alloc, held.lease, first, &mut rows)?;
    Ok(rows)
}

/// The rows of a session, root by root; none where there is no such session.
pub(crate) fn read_roots(alloc: Global, table: &Engine, session: u32) -> Result<Rows, Memory>
    requires { IsLegal table.now.columns table.now.entries }
    ensures { IfOk result (λ rows. IfSome (session_of table.now.entries session) (λ opened. rows ≡ session_rows opened table.now.entries)) }
{
    let roots = roots_of(table, session)?;
    let mut rows = Items::new(alloc);
    for node in 0..roots {
        rows = read_root(alloc, table, session, node, rows)?;
    }
    Ok(rows)
}
