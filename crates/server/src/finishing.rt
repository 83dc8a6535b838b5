//! What follows once the workers have stopped: their passes and hands are joined, and their links handed back.

ghost use Rattle.std.specs.Prelude.{◌≡◌, ◌+◌, ◌<◌, ◌≤◌, ◌^◌, true, false, [], ◌++◌, All, IfOk, OnOk, map, flat_map, length, vec_len};
ghost use Rattle.links.specs.Told.{more};
ghost use Rattle.open_tables.specs.Tables.{AreTheirs, specs_of};
ghost use Rattle.call_plans.specs.Plans.{plan};
ghost use Rattle.job_queue.specs.Hands.{IsOf, known};
ghost use Rattle.server.specs.Splits.{AreGathered};
ghost use Rattle.server.specs.Crew.{joined_hand};
ghost use Rattle.server.specs.Finish.{HasFinished};

use crate::splits::join_all;
use crate::workers::{Job, Worker, work};
use doors::Door;
use job_queue::{Hand, Queue};
use links::{Clock, Gate, Link};
use open_tables::{Passes, Tables};
use outside::Memory;
use std::alloc::Global;
use std::sync::Wait;

/// Joins the passes and the hands of other workers to those of the first, and keeps their links, in their order.
fn gather<L: Link + Drop, C: Drop>(
    alloc: Global,
    tables: &Tables,
    queue: &Queue<Job<L>>,
    hand: &mut Hand<Job<L>>,
    first: Passes,
    others: Vec<Worker<L, C>>,
) -> Result<(Passes, Vec<Vec<L>>), Memory>
    requires first { AreTheirs tables.now first }
    requires theirs { All (λ worker. AreTheirs tables.now worker.passes) others.items }
    requires hands { All (λ worker. IsOf queue.now worker.hand) others.items }
    requires takers { All (λ worker. (known worker.hand).puts ≡ false) others.items }
    requires hand { IsOf queue.now hand.old × (0 < (known hand.old).parts) }
    ensures theirs { IfOk result (λ both. AreTheirs tables.now both.0) }
    ensures passes { IfOk result (λ both. AreGathered first (map (λ worker. worker.passes) others.items) both.0) }
    ensures links { IfOk result (λ both. map (λ links. links.items) both.1.items ≡ map (λ worker. worker.links.items) others.items) }
    ensures hand { OnOk result (IsOf queue.now hand.new) }
    ensures known { OnOk result (known hand.new ≡ joined_hand (known hand.old) (map (λ worker. known worker.hand) others.items)) }
{
    let mut passes = first;
    let mut lists = Vec::with_capacity(alloc, others.len())?;
    for other in others {
        let Worker {
            passes: theirs,
            clock: _,
            hand: given,
            links,
        } = other;
        passes = join_all(alloc, tables, passes, theirs)?;
        queue.join(hand, given);
        lists.push(links)?;
    }
    Ok((passes, lists))
}

/// Hands links back, in their order.
fn hand_back<L: Link + Drop, D: Door<L>>(door: &mut D, links: Vec<L>)
    requires { length links.items ≤ D.out door.old }
    ensures left { D.left door.new ≡ D.left door.old }
    ensures handed { D.handed door.new ≡ more (D.handed door.old) links.items }
    ensures out { D.out door.new + length links.items ≡ D.out door.old }
    ensures faults { D.faults door.new ≡ D.faults door.old }
{
    for link in links {
        door.back(link);
    }
}

/// Hands links back: one list after another.
fn hand_back_all<L: Link + Drop, D: Door<L>>(door: &mut D, lists: Vec<Vec<L>>)
    requires { length (flat_map (λ links. links.items) lists.items) ≤ D.out door.old }
    ensures left { D.left door.new ≡ D.left door.old }
    ensures handed { D.handed door.new ≡ more (D.handed door.old) (flat_map (λ links. links.items) lists.items) }
    ensures out { D.out door.new + length (flat_map (λ links. links.items) lists.items) ≡ D.out door.old }
    ensures faults { D.faults door.new ≡ D.faults door.old }
{
    for links in lists {
        hand_back(door, links);
    }
}

/// Joins the workers to the first, which is the last of the crew, lets it serve what is left in the queue, and hands all
/// links back: those of the first, and then those of the others. Want of memory comes also where a job is left.
pub(crate) fn finish<R: Wait, L: Link + Drop, D: Door<L>, C: Clock + Drop, G: Gate>(
    rt: &R,
    alloc: Global,
    tables: &Tables,
    queue: &Queue<Job<L>>,
    gate: &G,
    mut crew: Vec<Worker<L, C>>,
    hand: &mut Hand<Job<L>>,
    door: &mut D,
    clock: &mut C,
) -> Result<Passes, Memory>
    requires some { 0 < vec_len crew }
    requires theirs { All (λ worker. AreTheirs tables.now worker.passes) crew.items }
    requires hands { All (λ worker. IsOf queue.now worker.hand) crew.items }
    requires takers { All (λ worker. (known worker.hand).puts ≡ false) crew.items }
    requires parts { All (λ worker. (known worker.hand).parts ≡ 1) crew.items }
    requires links { All (λ worker. length worker.links.items ≡ length (known worker.hand).taken) crew.items }
    requires hand { IsOf queue.now hand.old × ((known hand.old).parts + vec_len crew ≡ 2 ^ 32) × (0 < (known hand.old).parts) }
    requires puts { ((known hand.old).puts ≡ true) × ((known hand.old).taken ≡ []) }
    requires out { length (known hand.old).put ≤ D.out door.old }
    ensures theirs { IfOk result (λ after. AreTheirs tables.now after) }
    ensures finished { IfOk result (λ after. HasFinished (λ worker. worker.passes) (λ worker. known worker.hand) (λ worker. worker.links.items) (λ worker. C.readings worker.clock)
        (λ l. record { log = L.log l; left = L.left l; ended = L.ended l; closed = L.closed l; faults = L.faults l })
        (λ job. job.link) (plan (specs_of tables.now)) crew.items after
        (record { left = D.left door.old; handed = D.handed door.old; out = D.out door.old })
        (record { left = D.left door.new; handed = D.handed door.new; out = D.out door.new })
        (C.readings clock.new) (known hand.old)) }
    ensures faults { D.faults door.new ≡ D.faults door.old }
{
    let Some(first) = crew.pop() else {
        unreachable!()
    };
    let Worker {
        passes,
        clock: own,
        hand: given,
        links,
    } = first;
    let (passes, lists) = gather(alloc, tables, queue, hand, passes, crew)?;
    let first = Worker {
        passes,
        clock: own,
        hand: given,
        links,
    };
    let Worker {
        passes,
        clock: own,
        hand: given,
        links,
    } = work(rt, alloc, tables, queue, gate, first);
    *clock = own;
    queue.join(hand, given);
    let left = queue.left(rt, hand);
    hand_back(door, links);
    hand_back_all(door, lists);
    if left > 0 {
        return Err(Memory);
    }
    Ok(passes)
}
