//! The end of a connection whose client broke a rule: GOAWAY is written, and nothing is read any more.

ghost use Rattle.std.specs.Prelude.{◌≡◌, ℤ, false, List, Option};
ghost use Rattle.conn_calls.specs.Dealing.{dealing_of};
ghost use Rattle.conn_loop.specs.Shown.{shown};
ghost use Rattle.conn_loop.specs.Rounds.{BreaksOff, Leaves};

use crate::settling::{Settled, settle_last};
use crate::state::State;
use conn_calls::Dealing;
use conn_service::Ending;
use h2_frames::H2Fault;
use links::Link;
use outside::Memory;
use std::alloc::Global;
use std::sync::Wait;

/// The bytes that came break a rule of framing.
pub(crate) fn break_off<R: Wait, L: Link>(
    rt: &R,
    alloc: Global,
    link: &mut L,
    state: &mut State<'_>,
    fault: H2Fault,
) -> Ending
    requires open { L.closed link.old ≡ false }
    ensures open { L.closed link.new ≡ false }
    ensures breaks { (readings : Option (List ℤ)) → BreaksOff fault (shown L.log L.left L.ended L.faults link.old readings) (shown L.log L.left L.ended L.faults link.new readings) state.old result }
{
    match state.conn.break_off(alloc, fault) {
        Ok(()) => leave(rt, alloc, link, &mut state.conn, &mut state.output, fault),
        Err(Memory) => Ending::Memory,
    }
}

/// Writes the control frames that are due, GOAWAY the last of them.
pub(crate) fn leave<R: Wait, L: Link>(
    rt: &R,
    alloc: Global,
    link: &mut L,
    conn: &mut Dealing<'_>,
    output: &mut Vec<u8>,
    fault: H2Fault,
) -> Ending
    requires open { L.closed link.old ≡ false }
    ensures open { L.closed link.new ≡ false }
    ensures leaves { (readings : Option (List ℤ)) → Leaves fault (shown L.log L.left L.ended L.faults link.old readings) (shown L.log L.left L.ended L.faults link.new readings) (dealing_of conn.old) result }
{
    for _ in rt.forever() {
        match settle_last(rt, alloc, link, &mut conn.conn, output) {
            Settled::Quiet => {
                return Ending::Goaway {
                    code: fault.code,
                    rule: fault.rule,
                };
            }
            Settled::Behind => {}
            Settled::LinkFault => return Ending::LinkFault,
            Settled::Memory => return Ending::Memory,
        }
    }
    unreachable!()
}
