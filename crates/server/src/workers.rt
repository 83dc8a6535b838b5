//! A worker, and the jobs that it takes.

ghost use Rattle.std.specs.Prelude.{◌≡◌, ◌<◌, true, false, length, unwrap_or, []};
ghost use Rattle.links.specs.Told.{Tells};
ghost use Rattle.open_tables.specs.Tables.{AreTheirs, specs_of};
ghost use Rattle.call_plans.specs.Plans.{plan};
ghost use Rattle.conn_service.specs.Computed.{AreAlone};
ghost use Rattle.job_queue.specs.Hands.{IsOf, known};
ghost use Rattle.server.specs.Visits.{IsServed};
ghost use Rattle.server.specs.Works.{HasWorked};

use conn_loop::serve_connection;
use job_queue::{Hand, Queue};
use links::{Clock, Gate, Link};
use open_tables::{Passes, Tables};
use std::alloc::Global;
use std::sync::Wait;

/// A link that waits to be served, and the number of its connection. It is open, and nothing moved over it.
#[derive(Drop)]
pub(crate) struct Job<L: Link> {
    link: L,
    number: u32,
    ghost open: { L.closed link ≡ false },
    ghost new: { length (unwrap_or (L.log link) []) ≡ 0 },
}

/// A worker: its passes, its clock, its hand at the queue, and the links that it served.
#[derive(Drop)]
pub(crate) struct Worker<L: Link, C> {
    pub(crate) passes: Passes,
    pub(crate) clock: C,
    pub(crate) hand: Hand<Job<L>>,
    pub(crate) links: Vec<L>,
}

/// A job for a link that the door gave.
pub(crate) fn job_of<L: Link>(link: L, number: u32) -> Job<L>
    requires open { L.closed link ≡ false }
    requires new { Tells (L.log link) [] }
    ensures { result.link ≡ link }
{
    Job { link, number }
}

/// Serves one link, whatever its end is, and closes it.
fn serve_link<R: Wait, L: Link, C: Clock, G: Gate>(
    rt: &R,
    alloc: Global,
    tables: &Tables,
    passes: Passes,
    job: Job<L>,
    clock: &mut C,
    gate: &G,
) -> (Passes, L)
    requires theirs { AreTheirs tables.now passes }
    ensures theirs { AreTheirs tables.now result.0 }
    ensures alone { AreAlone passes → AreAlone result.0 }
    ensures served { IsServed
        (λ l. record { log = L.log l; left = L.left l; ended = L.ended l; closed = L.closed l; faults = L.faults l })
        (plan (specs_of tables.now)) (record { given = job.link; back = result.1 }) passes result.0 (C.readings clock.old) (C.readings clock.new) }
{
    let Job { mut link, number } = job;
    let (passes, _ending) = serve_connection(
        rt, alloc, tables, passes, &mut link, clock, gate, number,
    );
    link.close();
    (passes, link)
}

/// Takes jobs and serves their links, until the queue is closed and empty, or no memory is left for a link more.
pub(crate) fn work<R: Wait, L: Link, C: Clock, G: Gate>(
    rt: &R,
    alloc: Global,
    tables: &Tables,
    queue: &Queue<Job<L>>,
    gate: &G,
    worker: Worker<L, C>,
) -> Worker<L, C>
    requires theirs { AreTheirs tables.now worker.passes }
    requires hand { IsOf queue.now worker.hand }
    requires parts { 0 < (known worker.hand).parts }
    ensures theirs { AreTheirs tables.now result.passes }
    ensures hand { IsOf queue.now result.hand }
    ensures parts { (known result.hand).parts ≡ (known worker.hand).parts }
    ensures puts { (known result.hand).puts ≡ (known worker.hand).puts }
    ensures put { (known result.hand).put ≡ (known worker.hand).put }
    ensures alone { AreAlone worker.passes → AreAlone result.passes }
    ensures works { HasWorked
        (λ l. record { log = L.log l; left = L.left l; ended = L.ended l; closed = L.closed l; faults = L.faults l })
        (λ job. job.link) (plan (specs_of tables.now)) worker.passes result.passes (C.readings worker.clock) (C.readings result.clock)
        worker.links.items result.links.items (known worker.hand).taken (known result.hand).taken }
{
    let Worker {
        mut passes,
        mut clock,
        mut hand,
        mut links,
    } = worker;
    for _ in rt.forever() {
        if links.reserve(1).is_err() {
            break;
        }
        let Some(job) = queue.take(rt, &mut hand) else {
            break;
        };
        let (after, link) = serve_link(rt, alloc, tables, passes, job, &mut clock, gate);
        passes = after;
        links.push_reserved(link);
    }
    Worker {
        passes,
        clock,
        hand,
        links,
    }
}
