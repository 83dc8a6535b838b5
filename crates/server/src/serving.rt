//! The links of a door.

ghost use Rattle.std.specs.Prelude.{◌≡◌, ◌<◌, IfOk};
ghost use Rattle.open_tables.specs.Tables.{AreTheirs};
ghost use Rattle.conn_service.specs.Computed.{AreAlone};
ghost use Rattle.server.specs.Serving.{ServesDoor, ServeCause, WritesPartly};
ghost use Rattle.server.specs.Links.{LeavesPasses, LinksCause};

use crate::ServeFault;
use crate::crew::serve_beside;
use crate::finishing::finish;
use crate::reports::report;
use crate::teams::crew_of;
use doors::Door;
use job_queue::Queue;
use links::{Clock, Gate, Link};
use open_tables::{Passes, Tables};
use outside::Sink;
use std::alloc::Global;
use std::sync::Wait;
use std::thread::Threads;
use table_engine::Engine;

/// Serves the links that the door gives, so many at most, by so many workers, and hands each back.
///
/// This thread asks the door, and the workers serve beside it. Where the door failed they serve what it gave before.
fn serve_links<
    R: Threads + Wait + Sync,
    L: Link + Send + Drop,
    D: Door<L>,
    C: Clock + Clone + Send,
    G: Gate + Sync,
>(
    rt: &R,
    alloc: Global,
    workers: u32,
    connections: u32,
    tables: &Tables,
    passes: Passes,
    door: &mut D,
    clock: &mut C,
    gate: &G,
) -> Result<Passes, ServeFault>
    requires workers { 0 < workers }
    requires theirs { AreTheirs tables.now passes }
    requires alone { AreAlone passes }
    ensures theirs { IfOk result (λ after. AreTheirs tables.now after) }
    ensures serves { IfOk result (λ after. LeavesPasses
        (λ l. record { log = L.log l; left = L.left l; ended = L.ended l; closed = L.closed l; faults = L.faults l })
        (λ told. (clone : C) × C.is_clone clock.old clone × (told ≡ C.readings clone))
        tables.now workers connections passes after
        (record { left = D.left door.old; handed = D.handed door.old; out = D.out door.old })
        (record { left = D.left door.new; handed = D.handed door.new; out = D.out door.new })
        (C.readings clock.old) (C.readings clock.new)) }
    ensures cause { LinksCause (D.faults door.old) (D.faults door.new) result }
{
    let Ok((queue, mut hand)) = Queue::new(alloc, connections.max(1) as usize) else {
        return Err(ServeFault::Memory);
    };
    let crew = crew_of(rt, alloc, workers, tables, passes, &queue, &mut hand, clock)?;
    let (worked, asked) = serve_beside(
        rt,
        alloc,
        connections,
        tables,
        &queue,
        gate,
        crew,
        &mut hand,
        door,
    );
    let Ok(crew) = worked else {
        asked?;
        return Err(ServeFault::Memory);
    };
    let finished = finish(
        rt, alloc, tables, &queue, gate, crew, &mut hand, door, clock,
    );
    asked?;
    Ok(finished?)
}

/// Listens at `listen`, serves the connections that the door gives, `connections` at most, and reports the tables.
///
/// The connections are numbered from 0, in the order in which the door gives them. This thread asks the door, and `workers`
/// threads (1 to 32) serve beside it, each one connection at a time, with passes to the tables, a clone of the clock and a
/// list of links of its own. Each link is closed once it was served; all are handed back at the end, those of one worker
/// after those of another. How a connection ended changes nothing for the others. Where the door can't listen or fails, or
/// memory is wanting, nothing is written. `Outside` comes only where a count of faults rose, of the door or of `out`.
///
/// Where the system can make no thread the calls run one after another, and this call may wait for ever.
pub fn serve<
    R: Threads + Wait + Sync,
    L: Link + Send + Drop,
    D: Door<L>,
    C: Clock + Clone + Send,
    G: Gate + Sync,
    O: Sink,
>(
    rt: &R,
    alloc: Global,
    listen: &str,
    workers: u32,
    connections: u32,
    tables: Tables,
    passes: Passes,
    door: &mut D,
    clock: &mut C,
    gate: &G,
    out: &mut O,
) -> Result<Vec<Engine>, ServeFault>
    requires workers { 0 < workers }
    requires theirs { AreTheirs tables passes }
    requires alone { AreAlone passes }
    ensures serves { IfOk result (λ engines. ServesDoor
        (λ l. record { log = L.log l; left = L.left l; ended = L.ended l; closed = L.closed l; faults = L.faults l })
        (λ told. (clone : C) × C.is_clone clock.old clone × (told ≡ C.readings clone))
        tables workers connections passes
        (record { left = D.left door.old; handed = D.handed door.old; out = D.out door.old })
        (record { left = D.left door.new; handed = D.handed door.new; out = D.out door.new })
        (C.readings clock.old) (C.readings clock.new) (O.taken out.old) (O.taken out.new) engines.items) }
    ensures cause { ServeCause (D.faults door.old) (D.faults door.new) (O.faults out.old) (O.faults out.new) result }
    ensures partly { WritesPartly tables (D.faults door.old) (D.faults door.new) (O.taken out.old) (O.taken out.new) result }
{
    if door.listen(listen).is_err() {
        return Err(ServeFault::Outside);
    }
    let passes = serve_links(
        rt,
        alloc,
        workers,
        connections,
        &tables,
        passes,
        door,
        clock,
        gate,
    )?;
    report(rt, alloc, tables, passes, out)
}
