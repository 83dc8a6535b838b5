//! The drill.

ghost use Rattle.std.specs.Prelude.{◌≡◌, ◌<◌, ◌≤◌};
ghost use Rattle.program.specs.Drill.{Drills, IsText, status_of_drill};

use call_body::write_all;
use drill::summary;
use outside::{Sink, Text};
use std::alloc::Global;
use std::sync::Wait;
use std::thread::Threads;
use thiserror::Error;

/// Why the drill's text isn't written.
#[derive(Clone, Copy, Debug, PartialEq, Eq, Error)]
pub enum DrillFault {
    /// The output met a fault, and its count of faults rose.
    #[error("a fault outside")]
    Outside,
    /// Want of memory.
    #[error("out of memory")]
    Memory,
}

/// Writes the text of a drill.
fn write_text<O: Sink>(text: &Text, out: &mut O) -> Result<(), DrillFault>
    requires { IsText text.now }
    ensures { Drills (O.taken out.old) (O.taken out.new) (O.faults out.old) (O.faults out.new) result }
{
    let written = write_all(out, text.text().as_bytes());
    if written {
        Ok(())
    } else {
        Err(DrillFault::Outside)
    }
}

/// Runs the drill of n, which is 1 to 10,000, and writes its text to `out`.
///
/// `Outside` comes only where the count of faults of `out` rose; the first bytes of the text may be written then. At want
/// of memory nothing is.
pub fn drill<R: Threads + Wait + Sync, O: Sink>(
    rt: &R,
    alloc: Global,
    n: u32,
    out: &mut O,
) -> Result<(), DrillFault>
    requires some { 0 < n }
    requires most { n ≤ 10000 }
    ensures { Drills (O.taken out.old) (O.taken out.new) (O.faults out.old) (O.faults out.new) result }
{
    let Ok(done) = summary(rt, alloc, n) else {
        return Err(DrillFault::Memory);
    };
    write_text(&done.text, out)
}

/// The status of the program after it: 0, 3 where the output met a fault, and 4 for want of memory.
pub fn status(end: Result<(), DrillFault>) -> u8
    ensures { result ≡ status_of_drill end }
{
    match end {
        Ok(()) => 0,
        Err(DrillFault::Outside) => 3,
        Err(DrillFault::Memory) => 4,
    }
}
