//! A pass in the hands of one thread, which asks for one command after another.

ghost use Rattle.table_model.specs.Legal.{Takes};
ghost use Rattle.drill.specs.Table.{Holds, IsDrill, columns};

use outside::Memory;
use std::alloc::Global;
use std::sync::Wait;
use table_engine::Engine;
use table_model::{Command, Reply};
use turn_table::{Pass, Turn};

/// Asks for one command, at moment 0.
pub(crate) fn ask<R: Wait>(
    rt: &R,
    alloc: Global,
    turn: &Turn<Engine>,
    held: &mut Option<Pass<Engine>>,
    command: Command,
) -> Result<Reply, Memory>
    requires drill { IsDrill turn.now }
    requires held { Holds turn.now held.old }
    requires taken { Takes columns command }
    ensures held { Holds turn.now held.new }
{
    let Some(pass) = held.take() else {
        unreachable!()
    };
    let (pass, told) = turn.act(rt, alloc, pass, command, 0);
    *held = Some(pass);
    told
}
