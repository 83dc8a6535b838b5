//! A session read through a cut of its split tree.

ghost use Rattle.std.specs.Prelude.{[]};
ghost use Rattle.turn_table.specs.View.{IsOf};
ghost use Rattle.drill.specs.Drains.{Asked, Drains, Went};
ghost use Rattle.drill.specs.Parts.{Stands};

use crate::drain_ends::end;
use crate::drain_parts::Part;
use crate::drain_steps::{begin, seen_is_legal, take_step};
use crate::drained::{DrainFault, Drained};
use crate::moves::Move;
use std::alloc::Global;
use std::sync::Wait;
use table_engine::Engine;
use turn_table::{Pass, Turn};

// Follows the moves, and then reads to the end.
fn follow<R: Wait>(
    turn: &Turn<Engine>,
    rt: &R,
    alloc: Global,
    pass: Pass<Engine>,
    session: u32,
    parts: Vec<Part>,
    moves: &[Move],
) -> (Pass<Engine>, Result<Drained, DrainFault>)
    requires theirs { IsOf turn.now pass }
    requires stands { Stands pass.seen session [] parts.items }
    ensures theirs { IsOf turn.now result.0 }
    ensures went { Went session pass result.0 }
    ensures asked { Asked session moves.now pass result.0 }
    ensures drains { Drains pass.fixed pass.number session moves.now result.0.seen result.1 }
{
    let mut pass = pass;
    let mut parts = parts;
    for step in moves {
        let (next, taken) = take_step(turn, rt, alloc, pass, session, parts, *step);
        pass = next;
        seen_is_legal(&pass);
        parts = match taken {
            Ok(parts) => parts,
            Err(fault) => return (pass, Err(fault)),
        };
    }
    end(turn, rt, alloc, pass, session, parts)
}

/// Reads a session to its end, through the cut of its split tree to which these moves lead.
///
/// It begins with the session's roots. A read takes up to `count` rows of a node from its next offset on. A split replaces a
/// node of two rows or more by its two children; of the rows that were read the left child keeps the first ones, up to its
/// number of matching rows, and the right child the rest. At the end each node of the cut is read from its next offset to
/// its end.
///
/// What is drained are the rows of the session at the history that the pass has then seen, each once, whatever other passes
/// did between any two steps. Each step acts at reading 0 of the clock, and no node is read once the session has expired.
///
/// `NoSession` comes exactly where the history has no such session, `Expired` only where a look was at a history whose
/// moment isn't before the session's expiry, `Refused` only where a split got this reply. The entries that the pass gained
/// are splits for which the moves ask, and no other, after a fault too.
pub fn drain<R: Wait>(
    turn: &Turn<Engine>,
    rt: &R,
    alloc: Global,
    pass: Pass<Engine>,
    session: u32,
    moves: &[Move],
) -> (Pass<Engine>, Result<Drained, DrainFault>)
    requires theirs { IsOf turn.now pass }
    ensures theirs { IsOf turn.now result.0 }
    ensures went { Went session pass result.0 }
    ensures asked { Asked session moves.now pass result.0 }
    ensures drains { Drains pass.fixed pass.number session moves.now result.0.seen result.1 }
{
    let (pass, begun) = begin(turn, rt, alloc, pass, session);
    match begun {
        Ok(parts) => follow(turn, rt, alloc, pass, session, parts, moves),
        Err(fault) => (pass, Err(fault)),
    }
}
