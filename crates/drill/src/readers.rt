//! The reader beside the writers.

ghost use Rattle.std.specs.Prelude.{◌≡◌, ◌<◌, ◌≤◌, IfOk};
ghost use Rattle.drill.specs.Table.{Holds, IsDrill};

use crate::held::ask;
use crate::scripts::moves_of;
use crate::table::last_session;
use crate::{DrainFault, Move, drain};
use outside::Memory;
use std::alloc::Global;
use std::sync::Wait;
use table_engine::Engine;
use table_model::Reply;
use turn_table::{Pass, Turn};

/// Drains a session. Its rows are dropped.
fn drain_held<R: Wait>(
    rt: &R,
    alloc: Global,
    turn: &Turn<Engine>,
    held: &mut Option<Pass<Engine>>,
    session: u32,
    moves: &[Move],
) -> Result<(), Memory>
    requires held { Holds turn.now held.old }
    ensures held { Holds turn.now held.new }
{
    let Some(pass) = held.take() else {
        unreachable!()
    };
    let (pass, drained) = drain(turn, rt, alloc, pass, session, moves);
    *held = Some(pass);
    match drained {
        Err(DrainFault::Memory) => Err(Memory),
        _ => Ok(()),
    }
}

/// Begins and drains a session, and one more for each 16 of n.
pub(crate) fn read<R: Wait>(
    rt: &R,
    alloc: Global,
    turn: &Turn<Engine>,
    held: &mut Option<Pass<Engine>>,
    n: u32,
) -> Result<(), Memory>
    requires drill { IsDrill turn.now }
    requires held { Holds turn.now held.old }
    ensures held { Holds turn.now held.new }
{
    let moves = moves_of(alloc, n)?;
    for _ in 0..n / 16 + 1 {
        let begin = last_session(alloc)?;
        if let Reply::Session { session, .. } = ask(rt, alloc, turn, held, begin)? {
            drain_held(rt, alloc, turn, held, session, moves.as_slice())?;
        }
    }
    Ok(())
}
