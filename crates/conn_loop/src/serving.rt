//! One connection, from its first byte to its end.

ghost use Rattle.std.specs.Prelude.{◌≡◌, false};
ghost use Rattle.open_tables.specs.Tables.{AreTheirs, specs_of};
ghost use Rattle.call_plans.specs.Plans.{plan};
ghost use Rattle.conn_service.specs.Serves.{Serves};
ghost use Rattle.conn_loop.specs.Shown.{shown};

use crate::round::{Rounded, round};
use crate::state::State;
use conn_calls::Gated;
use conn_service::Ending;
use links::{Clock, Gate, Link};
use open_tables::{Passes, Tables};
use std::alloc::Global;
use std::sync::Wait;

/// Serves one connection until it ends, and says how it ended. The link stays open: the caller closes it.
///
/// It reads the client's frames one by one, answers what they ask over the tables, and writes what is due. `gate` is
/// passed at each request of the connection, whose number for it is `connection`.
pub fn serve_connection<'t, R: Wait, L: Link, C: Clock, G: Gate>(
    rt: &'t R,
    alloc: Global,
    tables: &'t Tables,
    mut passes: Passes,
    link: &mut L,
    clock: &mut C,
    gate: &G,
    connection: u32,
) -> (Passes, Ending)
    requires theirs { AreTheirs tables.now passes }
    requires open { L.closed link.old ≡ false }
    ensures theirs { AreTheirs tables.now result.0 }
    ensures serves { Serves (plan (specs_of tables.now)) passes result.0 (shown L.log L.left L.ended L.faults link.old (C.readings clock.old)) (shown L.log L.left L.ended L.faults link.new (C.readings clock.new)) result.1 }
    ensures open { L.closed link.new ≡ false }
{
    let Ok(mut state) = State::new(alloc) else {
        return (passes, Ending::Memory);
    };
    let mut gated = Gated::new(gate, connection);
    for _ in rt.forever() {
        let (after, rounded) = round(
            rt, alloc, tables, passes, link, clock, &mut gated, &mut state,
        );
        match rounded {
            Rounded::GoesOn => passes = after,
            Rounded::Ended(ending) => return (after, ending),
        }
    }
    unreachable!()
}
