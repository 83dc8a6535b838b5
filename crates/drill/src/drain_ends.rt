//! The end of a drain: each node of the cut is read to its end.

ghost use Rattle.std.specs.Prelude.{◌≡◌, ◌∷◌, [], ◌++◌, List, IfOk, IfErr};
ghost use Rattle.table_model.specs.Legal.{IsLegal};
ghost use Rattle.turn_table.specs.View.{IsOf};
ghost use Rattle.column_types.specs.declared.row.Row.{Row as ARow};
ghost use Rattle.drill.specs.declared.drain_parts.Part.{Part as APart};
ghost use Rattle.drill.specs.declared.moves.Move.{Move as AMove};
ghost use Rattle.drill.specs.Drains.{Asked, Drains, Fails, Went};
ghost use Rattle.drill.specs.Parts.{Stands};
ghost use Rattle.drill.specs.Steps.{ReadsAll, drained_by};

use crate::drain_parts::{Part, node_numbers};
use crate::drain_reads::read_rest;
use crate::drain_steps::{look_at, seen_is_legal};
use crate::drained::{DrainFault, Drained};
use outside::Memory;
use sqlite_items::Items;
use std::alloc::Global;
use std::sync::Wait;
use table_engine::Engine;
use table_model::Rows;
use turn_table::{Pass, Turn};

// Reads the rest of a node. All its rows come behind the others.
fn end_part<R: Wait>(
    turn: &Turn<Engine>,
    rt: &R,
    alloc: Global,
    pass: Pass<Engine>,
    session: u32,
    part: Part,
    rows: Rows,
) -> (Pass<Engine>, Result<Rows, DrainFault>)
    requires theirs { IsOf turn.now pass }
    ensures theirs { IsOf turn.now result.0 }
    ensures went { Went session pass result.0 }
    ensures asked { Asked session [] pass result.0 }
    ensures reads { (moves : List AMove) (parts rest : List APart) → ReadsAll pass.seen session moves parts (part ∷ rest) rows
        → IfOk result.1 (ReadsAll result.0.seen session moves parts rest) }
    ensures fails { (moves : List AMove) (parts rest : List APart) → ReadsAll pass.seen session moves parts (part ∷ rest) rows
        → IfErr result.1 (Fails pass.fixed pass.number result.0.seen session) }
{
    let mut rows = rows;
    let (pass, look) = look_at(turn, rt, pass, session, part.node);
    match look {
        Ok(lease) => match read_rest(alloc, lease, part.rows, &mut rows) {
            Ok(()) => (pass, Ok(rows)),
            Err(Memory) => (pass, Err(DrainFault::Memory)),
        },
        Err(fault) => (pass, Err(fault)),
    }
}

// Reads the rest of each node.
fn end_parts<R: Wait>(
    turn: &Turn<Engine>,
    rt: &R,
    alloc: Global,
    pass: Pass<Engine>,
    session: u32,
    parts: Vec<Part>,
) -> (Pass<Engine>, Result<Rows, DrainFault>)
    requires theirs { IsOf turn.now pass }
    ensures theirs { IsOf turn.now result.0 }
    ensures went { Went session pass result.0 }
    ensures asked { Asked session [] pass result.0 }
    ensures reads { (moves : List AMove) → Stands pass.seen session moves parts.items → IfOk result.1 (ReadsAll result.0.seen session moves parts.items []) }
    ensures fails { (moves : List AMove) → Stands pass.seen session moves parts.items → IfErr result.1 (Fails pass.fixed pass.number result.0.seen session) }
{
    let mut rest = parts;
    rest.reverse();
    let mut rows = Rows::new(alloc);
    let mut pass = pass;
    while let Some(part) = rest.pop() {
        let (next, read) = end_part(turn, rt, alloc, pass, session, part, rows);
        pass = next;
        rows = match read {
            Ok(rows) => rows,
            Err(fault) => return (pass, Err(fault)),
        };
    }
    (pass, Ok(rows))
}

// What was drained, where there was memory for it.
fn drained(
    nodes: Result<Items<u32>, Memory>,
    rows: Result<Rows, DrainFault>,
) -> Result<Drained, DrainFault>
    ensures { result ≡ drained_by nodes rows }
{
    match rows {
        Ok(rows) => match nodes {
            Ok(nodes) => Ok(Drained { nodes, rows }),
            Err(Memory) => Err(DrainFault::Memory),
        },
        Err(fault) => Err(fault),
    }
}

/// Reads each node of the cut from its next offset to its end.
pub(crate) fn end<R: Wait>(
    turn: &Turn<Engine>,
    rt: &R,
    alloc: Global,
    pass: Pass<Engine>,
    session: u32,
    parts: Vec<Part>,
) -> (Pass<Engine>, Result<Drained, DrainFault>)
    requires theirs { IsOf turn.now pass }
    ensures theirs { IsOf turn.now result.0 }
    ensures went { Went session pass result.0 }
    ensures asked { Asked session [] pass result.0 }
    ensures legal { IsLegal pass.fixed result.0.seen }
    ensures drains { (moves : List AMove) → Stands pass.seen session moves parts.items → Drains pass.fixed pass.number session moves result.0.seen result.1 }
{
    let nodes = node_numbers(alloc, parts.as_slice());
    let (pass, rows) = end_parts(turn, rt, alloc, pass, session, parts);
    seen_is_legal(&pass);
    (pass, drained(nodes, rows))
}
