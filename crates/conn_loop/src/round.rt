//! One round of the loop: what is due is written, then the link is read once, and what came is answered.

ghost use Rattle.std.specs.Prelude.{◌≡◌, ℤ, ◌<◌, false, List, Option};
ghost use Rattle.h2_frames.specs.Reading.{need_of};
ghost use Rattle.open_tables.specs.Tables.{AreTheirs, specs_of};
ghost use Rattle.call_plans.specs.Plans.{plan};
ghost use Rattle.conn_loop.specs.Shown.{shown};
ghost use Rattle.conn_loop.specs.Rounds.{Rounds, Readies};

use crate::reading::read_once;
use crate::settling::{Settled, settle};
use crate::state::State;
use conn_calls::Gated;
use conn_service::Ending;
use links::{Clock, Gate, Link};
use open_tables::{Passes, Tables};
use std::alloc::Global;
use std::sync::Wait;

/// What a round answers.
pub(crate) enum Rounded {
    /// The connection goes on.
    GoesOn,
    /// The connection ended so.
    Ended(Ending),
}

/// Writes what is due, once, unless all is written; then reads once, and answers what came.
pub(crate) fn round<'t, R: Wait, L: Link, C: Clock, G: Gate>(
    rt: &'t R,
    alloc: Global,
    tables: &'t Tables,
    passes: Passes,
    link: &mut L,
    clock: &mut C,
    gated: &mut Gated<'_, G>,
    state: &mut State<'t>,
) -> (Passes, Rounded)
    requires theirs { AreTheirs tables.now passes }
    requires open { L.closed link.old ≡ false }
    requires wants { 0 < need_of state.old.reader }
    ensures theirs { AreTheirs tables.now result.0 }
    ensures open { L.closed link.new ≡ false }
    ensures rounds { Rounds (plan (specs_of tables.now)) passes result.0 (shown L.log L.left L.ended L.faults link.old (C.readings clock.old)) (shown L.log L.left L.ended L.faults link.new (C.readings clock.new)) state.old state.new result.1 }
{
    match settle_once(rt, alloc, link, state) {
        Rounded::GoesOn => read_once(rt, alloc, tables, passes, link, clock, gated, state),
        Rounded::Ended(ending) => (passes, Rounded::Ended(ending)),
    }
}

// Writes what is due, unless all is written.
fn settle_once<R: Wait, L: Link>(
    rt: &R,
    alloc: Global,
    link: &mut L,
    state: &mut State<'_>,
) -> Rounded
    requires open { L.closed link.old ≡ false }
    ensures open { L.closed link.new ≡ false }
    ensures reader { state.new.reader ≡ state.old.reader }
    ensures settles { (readings : Option (List ℤ)) → Readies (shown L.log L.left L.ended L.faults link.old readings) (shown L.log L.left L.ended L.faults link.new readings) state.old state.new result }
{
    if state.is_quiet {
        return Rounded::GoesOn;
    }
    match settle(
        rt,
        alloc,
        link,
        &state.hand,
        &mut state.conn,
        &mut state.output,
    ) {
        Settled::Quiet => {
            state.is_quiet = true;
            Rounded::GoesOn
        }
        Settled::Behind => Rounded::GoesOn,
        Settled::LinkFault => Rounded::Ended(Ending::LinkFault),
        Settled::Memory => Rounded::Ended(Ending::Memory),
    }
}
