//! The writers and the reader, each in a thread of its own where one can be made.

ghost use Rattle.std.specs.Prelude.{◌≡◌, ◌≤◌, All, IfOk};
ghost use Rattle.turn_table.specs.View.{IsOf};
ghost use Rattle.drill.specs.Table.{IsDrill};

use crate::readers::read;
use crate::writers::{WRITERS, write};
use outside::Memory;
use std::alloc::{AllocError, Global};
use std::sync::Wait;
use std::thread::{Threads, map_vec};
use table_engine::Engine;
use turn_table::{Pass, Turn};

/// What one thread does, and its pass: writers are numbered from 0, and the reader comes behind them.
#[derive(Drop)]
struct Job {
    number: u32,
    n: u32,
    pass: Pass<Engine>,
}

/// The pass of a thread at its end, and how many of its appends were written before.
#[derive(Drop)]
struct Done {
    pass: Pass<Engine>,
    repeats: Result<u64, Memory>,
}

/// Does a job.
fn work<R: Wait>(rt: &R, alloc: Global, turn: &Turn<Engine>, job: Job) -> Done
    requires drill { IsDrill turn.now }
    requires n { job.n ≤ 10000 }
    requires theirs { IsOf turn.now job.pass }
    ensures { IsOf turn.now result.pass }
{
    let Job { number, n, pass } = job;
    let mut held = Some(pass);
    let repeats = if number < WRITERS {
        write(rt, alloc, turn, &mut held, n, number)
    } else {
        match read(rt, alloc, turn, &mut held, n) {
            Ok(()) => Ok(0),
            Err(Memory) => Err(Memory),
        }
    };
    let Some(pass) = held else { unreachable!() };
    Done { pass, repeats }
}

/// Splits the pass into one for each job, and one that is kept.
fn jobs_of<R: Wait>(
    rt: &R,
    alloc: Global,
    turn: &Turn<Engine>,
    pass: Pass<Engine>,
    n: u32,
) -> Result<(Pass<Engine>, Vec<Job>), Memory>
    requires drill { IsDrill turn.now }
    requires n { n ≤ 10000 }
    requires theirs { IsOf turn.now pass }
    ensures kept { IfOk result (λ both. IsOf turn.now both.0) }
    ensures jobs { IfOk result (λ both. All (λ job. IsDrill turn.now × (job.n ≤ 10000) × IsOf turn.now job.pass) both.1.items) }
{
    let mut jobs = Vec::with_capacity(alloc, 5)?;
    let mut kept = pass;
    for number in 0..WRITERS + 1 {
        let (left, right) = turn.split_pass(rt, alloc, kept);
        kept = left;
        jobs.push(Job {
            number,
            n,
            pass: right?,
        })?;
    }
    Ok((kept, jobs))
}

/// Does all jobs at once.
fn work_all<R: Threads + Wait + Sync>(
    rt: &R,
    alloc: Global,
    turn: &Turn<Engine>,
    jobs: Vec<Job>,
) -> Result<Vec<Done>, AllocError>
    requires ready { All (λ job. IsDrill turn.now × (job.n ≤ 10000) × IsOf turn.now job.pass) jobs.items }
    ensures { IfOk result (λ each. All (λ done. IsOf turn.now done.pass) each.items) }
{
    map_vec(
        rt,
        jobs,
        &|job: Job| -> Done
            requires { IsDrill turn.now × (job.n ≤ 10000) × IsOf turn.now job.pass }
            ensures { IsOf turn.entry.now result.pass }
        { work(rt, alloc, turn, job) },
    )
}

/// Adds two counts, where there are both.
fn added(one: Result<u64, Memory>, other: Result<u64, Memory>) -> Result<u64, Memory> {
    Ok(one?.saturating_add(other?))
}

/// Joins the passes into one, and adds up the repeats.
fn join_all(
    turn: &Turn<Engine>,
    kept: Pass<Engine>,
    each: Vec<Done>,
) -> (Pass<Engine>, Result<u64, Memory>)
    requires kept { IsOf turn.now kept }
    requires theirs { All (λ done. IsOf turn.now done.pass) each.items }
    ensures { IsOf turn.now result.0 }
{
    let mut pass = kept;
    let mut repeats = Ok(0_u64);
    for done in each {
        let Done {
            pass: given,
            repeats: more,
        } = done;
        pass = turn.join_pass(pass, given);
        repeats = added(repeats, more);
    }
    (pass, repeats)
}

/// Lets the writers and the reader run, and says how many appends were written before.
pub(crate) fn run_all<R: Threads + Wait + Sync>(
    rt: &R,
    alloc: Global,
    turn: &Turn<Engine>,
    pass: Pass<Engine>,
    n: u32,
) -> Result<(Pass<Engine>, u64), Memory>
    requires drill { IsDrill turn.now }
    requires n { n ≤ 10000 }
    requires theirs { IsOf turn.now pass }
    ensures { IfOk result (λ both. IsOf turn.now both.0) }
{
    let (kept, jobs) = jobs_of(rt, alloc, turn, pass, n)?;
    let each = work_all(rt, alloc, turn, jobs)?;
    let (pass, repeats) = join_all(turn, kept, each);
    Ok((pass, repeats?))
}
