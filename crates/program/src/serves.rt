//! The connections of a door.

ghost use Rattle.std.specs.Prelude.{◌≡◌, ◌<◌, OnOk};
ghost use Rattle.open_tables.specs.Tables.{AreTables};
ghost use Rattle.server.specs.Serving.{ServeCause};
ghost use Rattle.program.specs.Serve.{ServesNew, WritesNewPartly, status_of_serve};

use doors::Door;
use links::{Clock, Gate, Link};
use open_tables::Tables;
use outside::Sink;
use server::ServeFault;
use std::alloc::Global;
use std::sync::Wait;
use std::thread::Threads;
use table_spec::TableSpec;

/// Listens at `listen`, serves the connections of `door` over new tables of these SPECs, `connections` at most, by so many
/// workers at once, and writes the report on the tables to `out`.
pub fn serve<
    R: Threads + Wait + Sync,
    L: Link + Send + Drop,
    D: Door<L>,
    C: Clock + Clone + Send,
    G: Gate + Sync,
    O: Sink,
>(
    rt: &R,
    alloc: Global,
    listen: &str,
    workers: u32,
    connections: u32,
    specs: Vec<TableSpec>,
    door: &mut D,
    clock: &mut C,
    gate: &G,
    out: &mut O,
) -> Result<(), ServeFault>
    requires workers { 0 < workers }
    requires tables { AreTables specs.items }
    ensures served { OnOk result (ServesNew
        (λ l. record { log = L.log l; left = L.left l; ended = L.ended l; closed = L.closed l; faults = L.faults l })
        (λ told. (clone : C) × C.is_clone clock.old clone × (told ≡ C.readings clone))
        specs.items workers connections
        (record { left = D.left door.old; handed = D.handed door.old; out = D.out door.old })
        (record { left = D.left door.new; handed = D.handed door.new; out = D.out door.new })
        (C.readings clock.old) (C.readings clock.new) (O.taken out.old) (O.taken out.new)) }
    ensures cause { ServeCause (D.faults door.old) (D.faults door.new) (O.faults out.old) (O.faults out.new) result }
    ensures partly { WritesNewPartly specs.items (D.faults door.old) (D.faults door.new) (O.taken out.old) (O.taken out.new) result }
{
    let (tables, passes) = Tables::start(alloc, specs)?;
    server::serve(
        rt,
        alloc,
        listen,
        workers,
        connections,
        tables,
        passes,
        door,
        clock,
        gate,
        out,
    )?;
    Ok(())
}

/// The status of the program after it: 0, 3 where the door or the output met a fault, and 4 for want of memory.
pub fn status(end: Result<(), ServeFault>) -> u8
    ensures { result ≡ status_of_serve end }
{
    match end {
        Ok(()) => 0,
        Err(ServeFault::Outside) => 3,
        Err(ServeFault::Memory) => 4,
    }
}
