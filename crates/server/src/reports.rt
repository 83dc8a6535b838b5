//! The report on the tables.

ghost use Rattle.std.specs.Prelude.{◌≡◌, ◌++◌, IfOk, string_bytes, All, []};
ghost use Rattle.open_tables.specs.Tables.{AreTheirs, HasItsColumns, specs_of};
ghost use Rattle.server.specs.Report.{AreClosed, KeepsWritten, Reports, ReportCause, report_of};

use crate::ServeFault;
use crate::lines::add_line;
use call_body::write_all;
use open_tables::{Passes, Tables};
use outside::{Memory, Sink};
use std::alloc::Global;
use std::sync::Wait;
use table_engine::Engine;
use table_spec::TableSpec;
use turn_table::{Pass, Turn};

/// Closes each table with its pass, and adds its line. The engines are in the order of the tables.
fn close_all<R: Wait>(
    rt: &R,
    alloc: Global,
    tables: Vec<(TableSpec, Turn<Engine>)>,
    passes: Vec<Pass<Engine>>,
    text: &mut String,
) -> Result<Vec<Engine>, Memory>
    requires theirs { AreTheirs tables.items passes.items }
    requires columns { All HasItsColumns tables.items }
    ensures closed { IfOk result (λ engines. AreClosed tables.items passes.items engines.items) }
    ensures lines { IfOk result (λ engines. string_bytes text.new ≡ string_bytes text.old ++ report_of (specs_of tables.items) engines.items) }
{
    let mut engines = Vec::with_capacity(alloc, tables.len())?;
    for ((spec, turn), pass) in tables.into_iter().zip(passes) {
        let engine = turn.close(rt, pass);
        add_line(text, &spec, &engine)?;
        engines.push(engine)?;
    }
    Ok(engines)
}

/// Closes each table with its pass, writes for each, in their order, `NAME entries E visible V` and a line feed to `out`,
/// and gives the engines in that order. E is the length of the history of the engine, and V that of its visible rows.
///
/// That history is legal and begins with all that the pass of the table had seen; it is exactly that where the pass is
/// alone. `Outside` comes only where the count of faults of `out` rose; the first bytes of the lines may be written then.
/// At want of memory nothing is.
pub fn report<R: Wait, O: Sink>(
    rt: &R,
    alloc: Global,
    tables: Tables,
    passes: Passes,
    out: &mut O,
) -> Result<Vec<Engine>, ServeFault>
    requires theirs { AreTheirs tables passes }
    ensures reports { IfOk result (λ engines. Reports tables passes (O.taken out.old) (O.taken out.new) engines.items) }
    ensures cause { ReportCause (O.faults out.old) (O.faults out.new) result }
    ensures kept { KeepsWritten tables passes (O.taken out.old) (O.taken out.new) result }
{
    let mut text = String::new(alloc);
    let engines = close_all(rt, alloc, tables.parts(), passes.each, &mut text)?;
    if write_all(out, text.as_bytes()) {
        Ok(engines)
    } else {
        Err(ServeFault::Outside)
    }
}
