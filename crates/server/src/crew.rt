//! The workers of a door, on threads beside it.

ghost use Rattle.std.specs.Prelude.{◌≡◌, ◌<◌, true, All, IfOk, IfSome};
ghost use Rattle.open_tables.specs.Tables.{AreTheirs, specs_of};
ghost use Rattle.call_plans.specs.Plans.{plan};
ghost use Rattle.job_queue.specs.Hands.{IsOf, known};
ghost use Rattle.server.specs.Links.{AsksCause};
ghost use Rattle.server.specs.Asks.{AsksAll};
ghost use Rattle.server.specs.Works.{HasWorked};
ghost use Rattle.server.specs.Crew.{Pairs};
ghost use denote.Param.Send.{IsSync};
ghost use Rattle.conn_service.specs.Computed.{AreAlone};

use crate::ServeFault;
use crate::asking::ask;
use crate::workers::{Job, Worker, work};
use doors::Door;
use job_queue::{Hand, Queue};
use links::{Clock, Gate, Link};
use open_tables::Tables;
use outside::Memory;
use std::alloc::{AllocError, Global};
use std::sync::Wait;
use std::thread::{Threads, join_mut, map_vec};

/// Lets each worker take jobs until the queue is closed and empty, each in a thread of its own where one can be made.
fn work_all<
    R: Threads + Wait + Sync,
    L: Link + Send + Drop,
    C: Clock + Send + Drop,
    G: Gate + Sync,
>(
    rt: &R,
    alloc: Global,
    tables: &Tables,
    queue: &Queue<Job<L>>,
    gate: &G,
    crew: Vec<Worker<L, C>>,
) -> Result<Vec<Worker<L, C>>, AllocError>
    requires ready { All (λ worker. AreTheirs tables.now worker.passes × IsOf queue.now worker.hand × (0 < (known worker.hand).parts)) crew.items }
    ensures works { IfOk result (λ after. Pairs (λ old new. AreTheirs tables.now new.passes × IsOf queue.now new.hand
        × ((known new.hand).parts ≡ (known old.hand).parts) × ((known new.hand).puts ≡ (known old.hand).puts)
        × (AreAlone old.passes → AreAlone new.passes)
        × HasWorked
        (λ l. record { log = L.log l; left = L.left l; ended = L.ended l; closed = L.closed l; faults = L.faults l })
        (λ job. job.link) (plan (specs_of tables.now)) old.passes new.passes (C.readings old.clock) (C.readings new.clock)
        old.links.items new.links.items (known old.hand).taken (known new.hand).taken) crew.items after.items) }
{
    map_vec(
        rt,
        crew,
        &|worker: Worker<L, C>| -> Worker<L, C>
            requires { AreTheirs tables.now worker.passes × IsOf queue.now worker.hand × (0 < (known worker.hand).parts) }
            ensures { AreTheirs tables.entry.now result.passes × IsOf queue.entry.now result.hand
                × ((known result.hand).parts ≡ (known worker.hand).parts) × ((known result.hand).puts ≡ (known worker.hand).puts)
                × (AreAlone worker.passes → AreAlone result.passes)
                × HasWorked
                (λ l. record { log = L.log l; left = L.left l; ended = L.ended l; closed = L.closed l; faults = L.faults l })
                (λ job. job.link) (plan (specs_of tables.entry.now)) worker.passes result.passes (C.readings worker.clock) (C.readings result.clock)
                worker.links.items result.links.items (known worker.hand).taken (known result.hand).taken }
        { work(rt, alloc, tables, queue, gate, worker) },
    )
}

/// Asks the door for links, so many at most, on this thread, and lets the workers serve them beside it.
pub(crate) fn serve_beside<
    'a,
    R: Threads + Wait + Sync,
    L: Link + Send + Drop,
    D: Door<L>,
    C: Clock + Send + Drop,
    G: Gate + Sync,
>(
    rt: &'a R,
    alloc: Global,
    connections: u32,
    tables: &'a Tables,
    queue: &'a Queue<Job<L>>,
    gate: &'a G,
    crew: Vec<Worker<L, C>>,
    hand: &'a mut Hand<Job<L>>,
    door: &'a mut D,
) -> (
    Result<Vec<Worker<L, C>>, AllocError>,
    Result<(), ServeFault>,
)
    requires ready { All (λ worker. AreTheirs tables.now worker.passes × IsOf queue.now worker.hand × (0 < (known worker.hand).parts)) crew.items }
    requires hand { IsOf queue.now hand.old × (0 < (known hand.old).parts) × ((known hand.old).puts ≡ true) }
    ensures works { IfOk result.0 (λ after. Pairs (λ old new. AreTheirs tables.now new.passes × IsOf queue.now new.hand
        × ((known new.hand).parts ≡ (known old.hand).parts) × ((known new.hand).puts ≡ (known old.hand).puts)
        × (AreAlone old.passes → AreAlone new.passes)
        × HasWorked
        (λ l. record { log = L.log l; left = L.left l; ended = L.ended l; closed = L.closed l; faults = L.faults l })
        (λ job. job.link) (plan (specs_of tables.now)) old.passes new.passes (C.readings old.clock) (C.readings new.clock)
        old.links.items new.links.items (known old.hand).taken (known new.hand).taken) crew.items after.items) }
    ensures hand { IsOf queue.now hand.new × ((known hand.new).parts ≡ (known hand.old).parts) × ((known hand.new).puts ≡ true)
        × ((known hand.new).taken ≡ (known hand.old).taken) }
    ensures asks { AsksAll (λ job. job.link)
        (record { left = D.left door.old; handed = D.handed door.old; out = D.out door.old })
        (record { left = D.left door.new; handed = D.handed door.new; out = D.out door.new })
        (known hand.old).put (known hand.new).put connections result.1 }
    ensures cause { AsksCause (D.faults door.old) (D.faults door.new) result.1 }
{
    let mut waiting = Some(crew);
    let hand = &mut *hand;
    let door = &mut *door;
    join_mut(
        rt,
        &mut || -> Result<Vec<Worker<L, C>>, AllocError>
            requires { IsSync R.row × IfSome waiting (λ crew. All (λ worker. AreTheirs tables.now worker.passes × IsOf queue.now worker.hand × (0 < (known worker.hand).parts)) crew.items) }
            ensures { IfSome waiting.entry (λ crew. IfOk result (λ after. Pairs (λ old new. AreTheirs tables.entry.now new.passes × IsOf queue.entry.now new.hand
                × ((known new.hand).parts ≡ (known old.hand).parts) × ((known new.hand).puts ≡ (known old.hand).puts)
                × (AreAlone old.passes → AreAlone new.passes)
                × HasWorked
                (λ l. record { log = L.log l; left = L.left l; ended = L.ended l; closed = L.closed l; faults = L.faults l })
                (λ job. job.link) (plan (specs_of tables.entry.now)) old.passes new.passes (C.readings old.clock) (C.readings new.clock)
                old.links.items new.links.items (known old.hand).taken (known new.hand).taken) crew.items after.items)) }
        {
            match waiting.take() {
                Some(crew) => work_all(rt, alloc, tables, queue, gate, crew),
                None => Err(AllocError),
            }
        },
        &mut || -> Result<(), ServeFault>
            requires { IsOf queue.now hand.now × (0 < (known hand.now).parts) × ((known hand.now).puts ≡ true) }
            ensures { IsOf queue.entry.now hand.exit.now × ((known hand.exit.now).parts ≡ (known hand.entry.now).parts) × ((known hand.exit.now).puts ≡ true)
                × ((known hand.exit.now).taken ≡ (known hand.entry.now).taken)
                × AsksAll (λ job. job.link)
                (record { left = D.left door.entry.now; handed = D.handed door.entry.now; out = D.out door.entry.now })
                (record { left = D.left door.exit.now; handed = D.handed door.exit.now; out = D.out door.exit.now })
                (known hand.entry.now).put (known hand.exit.now).put connections result
                × AsksCause (D.faults door.entry.now) (D.faults door.exit.now) result }
        { ask(rt, connections, queue, hand, door) },
    )
}
