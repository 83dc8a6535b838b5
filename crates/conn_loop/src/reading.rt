//! One read of the link, and what follows of each that it gives.

ghost use Rattle.std.specs.Prelude.{◌≡◌, ℤ, ◌<◌, true, false, List, Option};
ghost use Rattle.links.specs.Link.{IsSpent};
ghost use Rattle.h2_frames.specs.Reading.{need_of};
ghost use Rattle.h2_frames.specs.Sound.{IsFrame};
ghost use Rattle.open_tables.specs.Tables.{AreTheirs, specs_of};
ghost use Rattle.call_plans.specs.Plans.{plan};
ghost use Rattle.conn_service.specs.Serves.{Shown};
ghost use Rattle.conn_loop.specs.Shown.{shown};
ghost use Rattle.conn_loop.specs.Rounds.{ReadsOnce, Takes, Rests};

use crate::hearing::{Received, hear};
use crate::leaving::{break_off, leave};
use crate::round::Rounded;
use crate::state::State;
use conn_calls::{Gated, Heard, heed};
use conn_service::Ending;
use h2_frames::Frame;
use links::{Clock, Gate, Link};
use open_tables::{Passes, Tables};
use std::alloc::Global;
use std::sync::Wait;

/// Reads once, where a frame may begin, and answers what came.
pub(crate) fn read_once<'t, R: Wait, L: Link, C: Clock, G: Gate>(
    rt: &'t R,
    alloc: Global,
    tables: &'t Tables,
    passes: Passes,
    link: &mut L,
    clock: &mut C,
    gated: &mut Gated<'_, G>,
    state: &mut State<'t>,
) -> (Passes, Rounded)
    requires theirs { AreTheirs tables.now passes }
    requires open { L.closed link.old ≡ false }
    requires wants { 0 < need_of state.old.reader }
    ensures theirs { AreTheirs tables.now result.0 }
    ensures open { L.closed link.new ≡ false }
    ensures reads { ReadsOnce (plan (specs_of tables.now)) passes result.0 (shown L.log L.left L.ended L.faults link.old (C.readings clock.old)) (shown L.log L.left L.ended L.faults link.new (C.readings clock.new)) state.old state.new result.1 }
{
    match hear(alloc, link, &mut state.reader, &mut state.input) {
        Received::Frame(frame) => {
            take_frame(rt, alloc, tables, passes, link, clock, gated, state, frame)
        }
        Received::More => (passes, Rounded::GoesOn),
        Received::Fault(fault) => {
            let ending = break_off(rt, alloc, link, state, fault);
            (passes, Rounded::Ended(ending))
        }
        Received::NotReady => {
            let rested = rest(link, state);
            (passes, rested)
        }
        Received::End => (passes, at_end(state)),
        Received::LinkFault => (passes, Rounded::Ended(Ending::LinkFault)),
        Received::Memory => (passes, Rounded::Ended(Ending::Memory)),
    }
}

// A frame came whole.
fn take_frame<'t, R: Wait, L: Link, C: Clock, G: Gate>(
    rt: &'t R,
    alloc: Global,
    tables: &'t Tables,
    passes: Passes,
    link: &mut L,
    clock: &mut C,
    gated: &mut Gated<'_, G>,
    state: &mut State<'t>,
    frame: Frame,
) -> (Passes, Rounded)
    requires frame { IsFrame frame }
    requires theirs { AreTheirs tables.now passes }
    requires open { L.closed link.old ≡ false }
    ensures theirs { AreTheirs tables.now result.0 }
    ensures open { L.closed link.new ≡ false }
    ensures takes { Takes (plan (specs_of tables.now)) frame passes result.0 (shown L.log L.left L.ended L.faults link.old (C.readings clock.old)) (shown L.log L.left L.ended L.faults link.new (C.readings clock.new)) state.old state.new result.1 }
{
    let (passes, heard) = heed(
        tables,
        rt,
        alloc,
        passes,
        &mut state.conn,
        &mut state.calls,
        clock,
        gated,
        frame,
    );
    match heard {
        Heard::Goes => {
            state.is_quiet = false;
            (passes, Rounded::GoesOn)
        }
        Heard::Breaks(fault) => {
            let ending = leave(rt, alloc, link, &mut state.conn, &mut state.output, fault);
            (passes, Rounded::Ended(ending))
        }
        Heard::Memory => (passes, Rounded::Ended(Ending::Memory)),
    }
}

// No byte is there yet. The link waits where all is written.
fn rest<L: Link>(link: &mut L, state: &State<'_>) -> Rounded
    requires open { L.closed link.old ≡ false }
    requires ready { L.blocked link.old ≡ false }
    ensures open { L.closed link.new ≡ false }
    ensures rests { (readings : Option (List ℤ)) → Rests (shown L.log L.left L.ended L.faults link.old readings) (shown L.log L.left L.ended L.faults link.new readings) state.now result }
{
    if !state.is_quiet {
        return Rounded::GoesOn;
    }
    match link.wait(false) {
        Ok(()) => Rounded::GoesOn,
        Err(_) => Rounded::Ended(Ending::LinkFault),
    }
}

// No byte will come. The connection ends where all is written.
fn at_end(state: &State<'_>) -> Rounded
    ensures ends { (now : Shown) → now.ended ≡ true → IsSpent now.left → Rests now now state.now result }
{
    if !state.is_quiet {
        return Rounded::GoesOn;
    }
    let have = state.reader.held();
    if have == 0 {
        return Rounded::Ended(Ending::Done);
    }
    let need = state.reader.need();
    Rounded::Ended(Ending::Cut { have, need })
}
