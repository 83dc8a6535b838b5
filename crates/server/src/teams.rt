//! The workers of a door, made from the given passes and the given clock.

ghost use Rattle.std.specs.Prelude.{◌≡◌, ◌+◌, ◌<◌, [], All, IfOk, OnOk, map, vec_len, vec_capacity};
ghost use Rattle.open_tables.specs.Tables.{AreTheirs};
ghost use Rattle.job_queue.specs.Hands.{IsOf, known};
ghost use Rattle.job_queue.specs.Queue.{taker};
ghost use Rattle.server.specs.Crew.{AreTeams};
ghost use Rattle.server.specs.Finish.{IsCrew};

use crate::splits::split_all;
use crate::workers::{Job, Worker};
use job_queue::{Hand, Queue};
use links::{Clock, Link};
use open_tables::{Passes, Tables};
use outside::Memory;
use std::alloc::Global;
use std::mem;
use std::sync::Wait;

/// The passes of the first worker, and so many others: each has passes of its own, split from the first's, a clone of the
/// clock and a hand at the queue. There is room for one more.
fn split_crew<R: Wait, L: Link + Drop, C: Clock + Clone>(
    rt: &R,
    alloc: Global,
    count: u32,
    tables: &Tables,
    passes: Passes,
    queue: &Queue<Job<L>>,
    hand: &mut Hand<Job<L>>,
    clock: &C,
) -> Result<(Passes, Vec<Worker<L, C>>), Memory>
    requires theirs { AreTheirs tables.now passes }
    requires hand { IsOf queue.now hand.old }
    requires parts { count < (known hand.old).parts }
    ensures hand { OnOk result (IsOf queue.now hand.new) }
    ensures parts { OnOk result ((known hand.new).parts + count ≡ (known hand.old).parts) }
    ensures puts { OnOk result ((known hand.new).puts ≡ (known hand.old).puts) }
    ensures put { OnOk result ((known hand.new).put ≡ (known hand.old).put) }
    ensures taken { OnOk result ((known hand.new).taken ≡ (known hand.old).taken) }
    ensures count { IfOk result (λ both. vec_len both.1 ≡ count) }
    ensures room { IfOk result (λ both. vec_len both.1 < vec_capacity both.1) }
    ensures teams { IfOk result (λ both. AreTeams tables.now passes both.0 (map (λ worker. worker.passes) both.1.items)) }
    ensures hands { IfOk result (λ both. All (λ worker. IsOf queue.now worker.hand) both.1.items) }
    ensures new { IfOk result (λ both. All (λ worker. (known worker.hand ≡ taker) × (worker.links.items ≡ [])) both.1.items) }
    ensures clones { IfOk result (λ both. All (λ worker. C.is_clone clock.now worker.clock) both.1.items) }
{
    let mut first = passes;
    let mut others = Vec::with_capacity(alloc, count as usize + 1)?;
    for _made in 0..count {
        let (kept, new) = split_all(rt, alloc, tables, first)?;
        others.push_reserved(Worker {
            passes: new,
            clock: clock.clone()?,
            hand: queue.another(hand),
            links: Vec::new(alloc),
        });
        first = kept;
    }
    Ok((first, others))
}

/// So many workers, of which the last is the first: its passes are the given ones, from which those of the others are
/// split, and it has the given clock. The others have clones of it, and a clone is left in its place.
pub(crate) fn crew_of<R: Wait, L: Link + Drop, C: Clock + Clone>(
    rt: &R,
    alloc: Global,
    workers: u32,
    tables: &Tables,
    passes: Passes,
    queue: &Queue<Job<L>>,
    hand: &mut Hand<Job<L>>,
    clock: &mut C,
) -> Result<Vec<Worker<L, C>>, Memory>
    requires workers { 0 < workers }
    requires theirs { AreTheirs tables.now passes }
    requires hand { IsOf queue.now hand.old }
    requires parts { workers < (known hand.old).parts }
    ensures hand { OnOk result (IsOf queue.now hand.new) }
    ensures parts { OnOk result ((known hand.new).parts + workers ≡ (known hand.old).parts) }
    ensures puts { OnOk result ((known hand.new).puts ≡ (known hand.old).puts) }
    ensures put { OnOk result ((known hand.new).put ≡ (known hand.old).put) }
    ensures taken { OnOk result ((known hand.new).taken ≡ (known hand.old).taken) }
    ensures hands { IfOk result (λ crew. All (λ worker. IsOf queue.now worker.hand) crew.items) }
    ensures crew { IfOk result (λ crew. IsCrew (λ worker. worker.passes) (λ worker. known worker.hand) (λ worker. worker.links.items)
        (λ worker. worker.clock) C.is_clone clock.old tables.now workers passes crew.items) }
{
    let (passes, mut crew) = split_crew(
        rt,
        alloc,
        workers - 1,
        tables,
        passes,
        queue,
        hand,
        &*clock,
    )?;
    let spare = clock.clone()?;
    crew.push_reserved(Worker {
        passes,
        clock: mem::replace(clock, spare),
        hand: queue.another(hand),
        links: Vec::new(alloc),
    });
    Ok(crew)
}
