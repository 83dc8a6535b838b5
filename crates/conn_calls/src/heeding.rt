//! One frame, from its coming to its answers.

ghost use Rattle.h2_frames.specs.Sound.{IsFrame};
ghost use Rattle.open_tables.specs.Tables.{AreTheirs, specs_of};
ghost use Rattle.conn_requests.specs.Decided.{Played};
ghost use Rattle.call_plans.specs.Plans.{plan};
ghost use Rattle.conn_calls.specs.Calls.{kept_in};
ghost use Rattle.conn_calls.specs.Dealing.{dealing_of};
ghost use Rattle.conn_calls.specs.Heard.{IsAt, Heeds};

use crate::calls::Calls;
use crate::dealing::Dealing;
use crate::gated::Gated;
use crate::heard::Heard;
use crate::hearing::hear;
use crate::service::Service;
use h2_frames::Frame;
use links::{Clock, Gate};
use open_tables::{Passes, Tables};
use std::alloc::Global;
use std::sync::Wait;

/// Takes the client's next frame, and answers all that it decides: each thing in its order, by one reading of the clock, until
/// something ends its call. The answers are given to the connection, and `calls` are then the calls that go on.
///
/// A frame that breaks a rule of HTTP/2 is [`Heard::Breaks`]: nothing is decided, and the connection has its GOAWAY to write.
/// Where memory is wanting, an answer is status 14, which ends its call; where there is none for that answer or the connection
/// either, it is [`Heard::Memory`]: the first things that were decided are answered, but the latest answer may not be given,
/// and neither the connection nor `calls` can be used again.
pub fn heed<'t, R: Wait, C: Clock, G: Gate>(
    tables: &'t Tables,
    rt: &'t R,
    alloc: Global,
    passes: Passes,
    conn: &mut Dealing<'t>,
    calls: &mut Calls,
    clock: &mut C,
    gated: &mut Gated<'_, G>,
    frame: Frame,
) -> (Passes, Heard)
    requires frame { IsFrame frame }
    requires theirs { AreTheirs tables.now passes }
    ensures theirs { AreTheirs tables.now result.0 }
    ensures heeds { (p : Played) → IsAt p (dealing_of conn.old) (kept_in calls.old) → Heeds result.1 (plan (specs_of tables.now)) frame p passes result.0 (dealing_of conn.new) (kept_in calls.new) (C.readings clock.old) (C.readings clock.new) }
{
    let Ok(event) = conn.take(alloc, frame) else {
        return (passes, Heard::Memory);
    };
    if let Some(fault) = conn.first_fault() {
        return (passes, Heard::Breaks(fault));
    }
    match event {
        Some(event) => {
            let service = Service { tables, rt, alloc };
            hear(&service, passes, conn, calls, clock, gated, event)
        }
        None => (passes, Heard::Goes),
    }
}
