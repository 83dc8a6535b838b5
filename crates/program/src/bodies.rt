ghost use Rattle.std.specs.Prelude.{◌≡◌, IfOk, None, Some};
ghost use Rattle.std.specs.Option.{option_copied};
ghost use Rattle.program.specs.Body.{RanOver, status_of};
ghost use Rattle.program.specs.Typed.{fresh};

use crate::tables::OpaqueTable;
use crate::typed_table::TypedTable;
use call_body::{BodyEnd, answer_body};
use outside::{Memory, Sink, Source};
use std::alloc::Global;
use table_engine::TableSpec;

/// Reads the body of one AppendRows call from `input`, keeps its rows by offset, and writes the framed replies to
/// `out`. Without a table the rows are opaque bytes; with one they are decoded by the writer schema of the call and
/// kept by the table's columns.
///
/// It reads at most 1,073,741,825 bytes. The ends are those of [`answer_body`].
pub fn body<I: Source, O: Sink>(
    alloc: Global,
    table: Option<&TableSpec>,
    input: &mut I,
    out: &mut O,
) -> BodyEnd
    ensures ran { RanOver (option_copied table.entry)
        (record { left = I.left input.old; taken = O.taken out.old; source_faults = I.faults input.old; sink_faults = O.faults out.old })
        (record { left = I.left input.new; taken = O.taken out.new; source_faults = I.faults input.new; sink_faults = O.faults out.new }) result }
{
    match table {
        Some(spec) => typed_body(alloc, spec, input, out),
        None => opaque_body(alloc, input, out),
    }
}

/// The body over a table of opaque rows.
fn opaque_body<I: Source, O: Sink>(alloc: Global, input: &mut I, out: &mut O) -> BodyEnd
    ensures ran { RanOver None
        (record { left = I.left input.old; taken = O.taken out.old; source_faults = I.faults input.old; sink_faults = O.faults out.old })
        (record { left = I.left input.new; taken = O.taken out.new; source_faults = I.faults input.new; sink_faults = O.faults out.new }) result }
{
    let mut table = OpaqueTable::new(alloc);
    answer_body(alloc, &mut table, input, out)
}

/// The table of a body, before its first message.
fn typed_table(alloc: Global, spec: &TableSpec) -> Result<TypedTable, Memory>
    ensures { IfOk result (λ table. table ≡ fresh spec.now.schema) }
{
    TypedTable::new(alloc, spec.copy_schema(alloc)?)
}

/// The body over a table with these columns.
fn typed_body<I: Source, O: Sink>(
    alloc: Global,
    spec: &TableSpec,
    input: &mut I,
    out: &mut O,
) -> BodyEnd
    ensures ran { RanOver (Some spec.now)
        (record { left = I.left input.old; taken = O.taken out.old; source_faults = I.faults input.old; sink_faults = O.faults out.old })
        (record { left = I.left input.new; taken = O.taken out.new; source_faults = I.faults input.new; sink_faults = O.faults out.new }) result }
{
    match typed_table(alloc, spec) {
        Ok(mut table) => answer_body(alloc, &mut table, input, out),
        Err(Memory) => BodyEnd::Memory,
    }
}

/// The status of the program after a body: 0 for Done, 3 for Outside, 4 for Memory, 5 for Refused,
/// 6 for Cut and 7 for Long.
pub fn status(end: BodyEnd) -> u8
    ensures { result ≡ status_of end }
{
    match end {
        BodyEnd::Done => 0,
        BodyEnd::Outside => 3,
        BodyEnd::Memory => 4,
        BodyEnd::Refused => 5,
        BodyEnd::Cut => 6,
        BodyEnd::Long => 7,
    }
}
