//! One whole connection.

ghost use Rattle.std.specs.Prelude.{◌≡◌, false, true};
ghost use Rattle.open_tables.specs.Tables.{AreTables};
ghost use Rattle.program.specs.Pipe.{Pipes, status_of_ending};

use conn_loop::serve_connection;
use conn_service::Ending;
use links::{Clock, Gate, Link};
use open_tables::Tables;
use std::alloc::Global;
use std::sync::Wait;
use table_spec::TableSpec;

/// The number of the connection of `pipe`, by which a gate knows it.
const CONNECTION: u32 = 0;

/// Serves one connection over `link`, with new tables of these SPECs.
fn serve<R: Wait, L: Link, C: Clock, G: Gate>(
    rt: &R,
    alloc: Global,
    specs: Vec<TableSpec>,
    link: &mut L,
    clock: &mut C,
    gate: &G,
) -> Ending
    requires tables { AreTables specs.items }
    requires open { L.closed link.old ≡ false }
    ensures served { Pipes specs.items
        (record { log = L.log link.old; left = L.left link.old; ended = L.ended link.old; faults = L.faults link.old; readings = C.readings clock.old })
        (record { log = L.log link.new; left = L.left link.new; ended = L.ended link.new; faults = L.faults link.new; readings = C.readings clock.new }) result }
    ensures open { L.closed link.new ≡ false }
{
    match Tables::start(alloc, specs) {
        Ok((tables, passes)) => {
            let (_passes, ending) = serve_connection(
                rt, alloc, &tables, passes, link, clock, gate, CONNECTION,
            );
            ending
        }
        Err(_) => Ending::Memory,
    }
}

/// Serves one connection over `link`, with new tables of these SPECs, and closes the link.
pub fn pipe<R: Wait, L: Link, C: Clock, G: Gate>(
    rt: &R,
    alloc: Global,
    specs: Vec<TableSpec>,
    link: &mut L,
    clock: &mut C,
    gate: &G,
) -> Ending
    requires tables { AreTables specs.items }
    requires open { L.closed link.old ≡ false }
    ensures served { Pipes specs.items
        (record { log = L.log link.old; left = L.left link.old; ended = L.ended link.old; faults = L.faults link.old; readings = C.readings clock.old })
        (record { log = L.log link.new; left = L.left link.new; ended = L.ended link.new; faults = L.faults link.new; readings = C.readings clock.new }) result }
    ensures closed { L.closed link.new ≡ true }
{
    let ending = serve(rt, alloc, specs, link, clock, gate);
    link.close();
    ending
}

/// The status of the program after a connection: 0 for Done, 3 for LinkFault, 4 for Memory, 5 for Goaway and 6 for Cut.
pub fn status(end: Ending) -> u8
    ensures { result ≡ status_of_ending end }
{
    match end {
        Ending::Done => 0,
        Ending::LinkFault => 3,
        Ending::Memory => 4,
        Ending::Goaway { .. } => 5,
        Ending::Cut { .. } => 6,
    }
}
