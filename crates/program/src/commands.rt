//! The commands of the program.

ghost use Rattle.std.specs.Prelude.{◌≡◌, map, string_bytes, false};
ghost use Rattle.command_line.specs.declared.line.CommandLine.{CommandLine as Line};
ghost use Rattle.command_line.specs.Line.{IsLine};
ghost use Rattle.program.specs.Runs.{HasTables, Runs, RunsNone, status_without};

use crate::bodies::{body, status};
use crate::drills::{self, drill};
use crate::pipes::{self, pipe as serve_pipe};
use crate::serves::{self, serve};
use command_line::{CommandLine, LineFault, command_of};
use doors::Door;
use links::{Clock, Gate, Link};
use outside::{Sink, Source};
use std::alloc::Global;
use std::sync::Wait;
use std::thread::Threads;

/// The status where the words are no command line.
pub const USAGE: u8 = 2;

/// The status of want of memory.
pub const WANT_OF_MEMORY: u8 = 4;

/// The status where the words gave no command line.
fn status_without(fault: LineFault) -> u8
    ensures { result ≡ status_without fault }
{
    match fault {
        LineFault::Usage => USAGE,
        LineFault::Memory => WANT_OF_MEMORY,
    }
}

/// Runs the command of a line.
fn run_line<
    R: Threads + Wait + Sync,
    P: Link,
    L: Link + Send + Drop,
    D: Door<L>,
    C: Clock + Clone + Send,
    G: Gate + Sync,
    I: Source,
    O: Sink,
>(
    rt: &R,
    alloc: Global,
    line: CommandLine,
    door: &mut D,
    pipe: &mut P,
    clock: &mut C,
    gate: &G,
    input: &mut I,
    out: &mut O,
) -> u8
    requires tables { HasTables line }
    requires open { P.closed pipe.old ≡ false }
    ensures runs { Runs
        (λ l. record { log = L.log l; left = L.left l; ended = L.ended l; closed = L.closed l; faults = L.faults l })
        (λ told. (clone : C) × C.is_clone clock.old clone × (told ≡ C.readings clone))
        line
        (record { door = door.old; pipe = pipe.old; clock = clock.old; input = input.old; out = out.old })
        (record { door = door.new; pipe = pipe.new; clock = clock.new; input = input.new; out = out.new })
        (record {
          streams = record { left = I.left input.old; taken = O.taken out.old; source_faults = I.faults input.old; sink_faults = O.faults out.old };
          pipe = record { log = P.log pipe.old; left = P.left pipe.old; ended = P.ended pipe.old; faults = P.faults pipe.old; readings = C.readings clock.old };
          closed = P.closed pipe.old;
          door = record { left = D.left door.old; handed = D.handed door.old; out = D.out door.old };
          door_faults = D.faults door.old;
        })
        (record {
          streams = record { left = I.left input.new; taken = O.taken out.new; source_faults = I.faults input.new; sink_faults = O.faults out.new };
          pipe = record { log = P.log pipe.new; left = P.left pipe.new; ended = P.ended pipe.new; faults = P.faults pipe.new; readings = C.readings clock.new };
          closed = P.closed pipe.new;
          door = record { left = D.left door.new; handed = D.handed door.new; out = D.out door.new };
          door_faults = D.faults door.new;
        })
        result }
{
    match line {
        CommandLine::Body { table } => status(body(alloc, table.as_ref(), input, out)),
        CommandLine::Pipe { tables } => {
            let ending = serve_pipe(rt, alloc, tables.into_vec(), pipe, clock, gate);
            pipes::status(ending)
        }
        CommandLine::Serve {
            listen,
            workers,
            connections,
            tables,
        } => {
            let end = serve(
                rt,
                alloc,
                listen.text(),
                workers,
                connections,
                tables.into_vec(),
                door,
                clock,
                gate,
                out,
            );
            serves::status(end)
        }
        CommandLine::Drill { n } => drills::status(drill(rt, alloc, n, out)),
    }
}

/// Runs the command that the words name, and gives the status of the program.
///
/// `body`, with or without a table, reads a body from `input` and writes the replies to `out`. `pipe` serves one
/// connection over the link `pipe`, with readings of `clock`, and closes the link. `serve` serves the connections that
/// `door` gives, several at once on threads of their own, closes each and hands it back, and writes the report on the
/// tables to `out`. `drill` runs the drill and writes its text to `out`. Where the words are no command line the status is
/// 2, and nothing is read or written.
pub fn run<
    R: Threads + Wait + Sync,
    P: Link,
    L: Link + Send + Drop,
    D: Door<L>,
    C: Clock + Clone + Send,
    G: Gate + Sync,
    I: Source,
    O: Sink,
>(
    rt: &R,
    alloc: Global,
    words: &[String],
    door: &mut D,
    pipe: &mut P,
    clock: &mut C,
    gate: &G,
    input: &mut I,
    out: &mut O,
) -> u8
    requires open { P.closed pipe.old ≡ false }
    ensures usage { ((line : Line) → IsLine (map string_bytes words.now) line → ⊥) → RunsNone
        (record { door = door.old; pipe = pipe.old; clock = clock.old; input = input.old; out = out.old })
        (record { door = door.new; pipe = pipe.new; clock = clock.new; input = input.new; out = out.new })
        result }
    ensures runs { (line : Line) → IsLine (map string_bytes words.now) line → Runs
        (λ l. record { log = L.log l; left = L.left l; ended = L.ended l; closed = L.closed l; faults = L.faults l })
        (λ told. (clone : C) × C.is_clone clock.old clone × (told ≡ C.readings clone))
        line
        (record { door = door.old; pipe = pipe.old; clock = clock.old; input = input.old; out = out.old })
        (record { door = door.new; pipe = pipe.new; clock = clock.new; input = input.new; out = out.new })
        (record {
          streams = record { left = I.left input.old; taken = O.taken out.old; source_faults = I.faults input.old; sink_faults = O.faults out.old };
          pipe = record { log = P.log pipe.old; left = P.left pipe.old; ended = P.ended pipe.old; faults = P.faults pipe.old; readings = C.readings clock.old };
          closed = P.closed pipe.old;
          door = record { left = D.left door.old; handed = D.handed door.old; out = D.out door.old };
          door_faults = D.faults door.old;
        })
        (record {
          streams = record { left = I.left input.new; taken = O.taken out.new; source_faults = I.faults input.new; sink_faults = O.faults out.new };
          pipe = record { log = P.log pipe.new; left = P.left pipe.new; ended = P.ended pipe.new; faults = P.faults pipe.new; readings = C.readings clock.new };
          closed = P.closed pipe.new;
          door = record { left = D.left door.new; handed = D.handed door.new; out = D.out door.new };
          door_faults = D.faults door.new;
        })
        result }
{
    match command_of(alloc, words) {
        Ok(line) => run_line(rt, alloc, line, door, pipe, clock, gate, input, out),
        Err(fault) => status_without(fault),
    }
}
