//! The drill.

ghost use Rattle.std.specs.Prelude.{◌≡◌, ◌<◌, ◌≤◌, IfOk};
ghost use Rattle.table_model.specs.Legal.{IsLegal};
ghost use Rattle.turn_table.specs.View.{IsOf};
ghost use Rattle.drill.specs.Table.{IsDrill, columns, last_session};
ghost use Rattle.drill.specs.Summary.{Draws, Sums};
ghost use Rattle.drill.specs.Begins.{Begun, Drawn, GivesRows, number_of};

use crate::crew::run_all;
use crate::lines::text_of;
use crate::roots::read_roots;
use crate::scripts::moves_of;
use crate::table::{last_session, open};
use crate::{DrainFault, Drained, Move, drain};
use outside::{Memory, Text};
use sqlite_items::Items;
use std::alloc::Global;
use std::sync::Wait;
use std::thread::Threads;
use table_engine::{Engine, machine_histories_are_legal};
use table_model::{Command, Reply, Rows};
use turn_table::{Pass, Turn};

/// What a drill leaves.
#[derive(Drop)]
pub struct Drill {
    /// Its five lines.
    pub text: Text,
    /// Its table, closed.
    pub table: Engine,
    /// The number of the session that was drained at its end; 0 where the table had no room for it.
    pub session: u32,
    /// How many appends were refused since their rows were written before.
    pub repeats: u64,
}

/// The number of the session that was begun, or 0.
fn number_of(reply: &Reply) -> u32
    ensures { result ≡ number_of reply.now }
{
    match reply {
        Reply::Session { session, .. } => *session,
        _ => 0,
    }
}

/// Begins the last session by its command, and gives its number; 0 where the table has no room for it.
fn begin_by<R: Wait>(
    rt: &R,
    alloc: Global,
    turn: &Turn<Engine>,
    pass: Pass<Engine>,
    command: Command,
) -> (Pass<Engine>, Result<u32, Memory>)
    requires drill { IsDrill turn.now }
    requires theirs { IsOf turn.now pass }
    requires asked { command ≡ last_session }
    ensures theirs { IsOf turn.now result.0 }
    ensures begun { IfOk result.1 (Begun result.0.seen) }
{
    let (pass, told) = turn.act(rt, alloc, pass, command, 0);
    match told {
        Ok(reply) => (pass, Ok(number_of(&reply))),
        Err(Memory) => (pass, Err(Memory)),
    }
}

/// Begins the last session, and gives its number; 0 where the table has no room for it.
fn begin<R: Wait>(
    rt: &R,
    alloc: Global,
    turn: &Turn<Engine>,
    pass: Pass<Engine>,
) -> (Pass<Engine>, Result<u32, Memory>)
    requires drill { IsDrill turn.now }
    requires theirs { IsOf turn.now pass }
    ensures theirs { IsOf turn.now result.0 }
    ensures begun { IfOk result.1 (Begun result.0.seen) }
{
    match last_session(alloc) {
        Ok(command) => begin_by(rt, alloc, turn, pass, command),
        Err(Memory) => (pass, Err(Memory)),
    }
}

/// The rows that were drained. There are none where the session couldn't be read to its end.
fn rows_in(drained: Result<Drained, DrainFault>) -> Result<Option<Rows>, Memory>
    ensures { GivesRows drained result }
{
    match drained {
        Ok(
            Drained {
                nodes: _nodes,
                rows,
            },
        ) => Ok(Some(rows)),
        Err(DrainFault::Memory) => Err(Memory),
        Err(_fault) => Ok(None),
    }
}

/// Drains a session that is there.
fn drain_by<R: Wait>(
    rt: &R,
    alloc: Global,
    turn: &Turn<Engine>,
    pass: Pass<Engine>,
    session: u32,
    moves: &[Move],
) -> (Pass<Engine>, Result<Option<Rows>, Memory>)
    requires theirs { IsOf turn.now pass }
    requires begun { Begun pass.seen session }
    requires some { 0 < session }
    ensures theirs { IsOf turn.now result.0 }
    ensures drawn { IfOk result.1 (Drawn result.0.seen session) }
{
    let (pass, drained) = drain(turn, rt, alloc, pass, session, moves);
    let rows = rows_in(drained);
    (pass, rows)
}

/// Drains the last session, if it is there.
fn drain_last<R: Wait>(
    rt: &R,
    alloc: Global,
    turn: &Turn<Engine>,
    pass: Pass<Engine>,
    session: u32,
    n: u32,
) -> (Pass<Engine>, Result<Option<Rows>, Memory>)
    requires theirs { IsOf turn.now pass }
    requires begun { Begun pass.seen session }
    ensures theirs { IsOf turn.now result.0 }
    ensures drawn { IfOk result.1 (Drawn result.0.seen session) }
{
    if session == 0 {
        return (pass, Ok(Some(Items::new(alloc))));
    }
    match moves_of(alloc, n) {
        Ok(moves) => drain_by(rt, alloc, turn, pass, session, moves.as_slice()),
        Err(Memory) => (pass, Err(Memory)),
    }
}

/// The rows of the last session: those that were drained, or else those that its roots have in the closed table.
fn last_rows(
    alloc: Global,
    table: &Engine,
    session: u32,
    drained: Option<Rows>,
) -> Result<Rows, Memory>
    requires legal { IsLegal table.now.columns table.now.entries }
    requires drawn { Drawn table.now.entries session drained }
    ensures { IfOk result (Draws table.now.entries session) }
{
    match drained {
        Some(rows) => Ok(rows),
        None => read_roots(alloc, table, session),
    }
}

/// What the threads and the last session left.
#[derive(Drop)]
struct Ran {
    pass: Pass<Engine>,
    repeats: u64,
    session: u32,
    drained: Option<Rows>,
}

/// Lets the writers and the reader run, and then drains the last session.
fn run<R: Threads + Wait + Sync>(
    rt: &R,
    alloc: Global,
    turn: &Turn<Engine>,
    pass: Pass<Engine>,
    n: u32,
) -> Result<Ran, Memory>
    requires drill { IsDrill turn.now }
    requires n { n ≤ 10000 }
    requires theirs { IsOf turn.now pass }
    ensures theirs { IfOk result (λ ran. IsOf turn.now ran.pass) }
    ensures drawn { IfOk result (λ ran. Drawn ran.pass.seen ran.session ran.drained) }
{
    let (pass, repeats) = run_all(rt, alloc, turn, pass, n)?;
    let (pass, session) = begin(rt, alloc, turn, pass);
    let session = session?;
    let (pass, drained) = drain_last(rt, alloc, turn, pass, session, n);
    Ok(Ran {
        pass,
        repeats,
        session,
        drained: drained?,
    })
}

/// The drill by its closed table.
fn drill_of(
    alloc: Global,
    table: Engine,
    repeats: u64,
    session: u32,
    drained: Option<Rows>,
) -> Result<Drill, Memory>
    requires columns { table.columns ≡ columns }
    requires legal { IsLegal table.columns table.entries }
    requires drawn { Drawn table.entries session drained }
    ensures { IfOk result (λ drill. Sums drill.table drill.session drill.repeats drill.text) }
{
    let rows = last_rows(alloc, &table, session, drained)?;
    let text = text_of(alloc, &table, repeats, rows.as_slice())?;
    Ok(Drill {
        text,
        table,
        session,
        repeats,
    })
}

/// Closes the table, and writes the text.
fn finish<R: Wait>(rt: &R, alloc: Global, turn: Turn<Engine>, ran: Ran) -> Result<Drill, Memory>
    requires drill { IsDrill turn }
    requires theirs { IsOf turn ran.pass }
    requires drawn { Drawn ran.pass.seen ran.session ran.drained }
    ensures { IfOk result (λ drill. Sums drill.table drill.session drill.repeats drill.text) }
{
    let Ran {
        pass,
        repeats,
        session,
        drained,
    } = ran;
    let table = turn.close(rt, pass);
    machine_histories_are_legal();
    drill_of(alloc, table, repeats, session, drained)
}

/// Runs the drill of n, which is 1 to 10,000.
///
/// The table is `projects/drill/datasets/d/tables/t=id:INT64:REQUIRED,tag:STRING`. Four writers run at once, each with a pass of its own: writer 0 appends
/// to a COMMITTED stream, 1 to a BUFFERED and 2 to a PENDING one, and 3 to the default stream, each the n batches of
/// [`rows_of`](crate::rows_of). Writers 0 to 2 give the offset and send every batch twice. Writer 1 flushes to the last
/// row after each batch; writer 2 finalises its stream, commits it, and sends the commit again. Beside them a reader begins
/// and drains a session, and one more for each 16 of n.
///
/// At the end a session of 4 read streams with the restriction `tag IS NULL OR id < 1000000` is drained: one row is read at
/// place 0, and then each place is split, as many as n and at most 64. Where that is refused, its rows are read from the
/// roots in the closed table. All commands have reading 0 of the clock.
///
/// The text has five lines: `appends`, the accepted appends; `repeats`, the appends refused since their rows were written
/// before; `visible`, the visible rows; `matching`, the rows drained; and `sum`, the sum of their ids.
pub fn summary<R: Threads + Wait + Sync>(rt: &R, alloc: Global, n: u32) -> Result<Drill, Memory>
    requires some { 0 < n }
    requires most { n ≤ 10000 }
    ensures { IfOk result (λ drill. Sums drill.table drill.session drill.repeats drill.text) }
{
    let (turn, pass) = open(alloc)?;
    let ran = run(rt, alloc, &turn, pass, n)?;
    finish(rt, alloc, turn, ran)
}
