//! Where the rows of a change go: to the visible ones, or to those that wait.

ghost use Rattle.std.specs.Prelude.{◌≡◌, ◌+◌, ◌<◌, ◌^◌, Bool, false, [], ◌∷◌, ◌++◌, length, drop, take, fold, IfOk, OnOk, OnErr, if◌then◌else◌};
ghost use Rattle.std.specs.Arc.{arc_value};
ghost use Rattle.std.specs.List.{flat_map};
ghost use Rattle.row_groups.specs.Places.{joined};
ghost use Rattle.table_engine.specs.Waiting.{CanWait, waiting_of, with_rows, with_none};

use crate::waiting::Waiting;
use outside::Memory;
use row_groups::{Groups, Slice};
use std::alloc::Global;
use std::sync::Arc;
use table_model::{Rows, StreamRef};

/// Shows the rows of an append at once, or lets them wait for their stream. Want of memory leaves all as it was.
pub(crate) fn store_rows(
    alloc: Global,
    groups: &mut Groups,
    waiting: &mut Waiting,
    stream: StreamRef,
    at_once: bool,
    rows: &Arc<Rows>,
) -> Result<(), Memory>
    requires small { length (arc_value rows.now) < 2 ^ 32 }
    requires room { length (joined groups.old) + length (if at_once then arc_value rows.now else []) < 2 ^ 32 }
    requires can_wait { at_once ≡ false → CanWait waiting.old stream }
    ensures shown { OnOk result (joined groups.new ≡ joined groups.old ++ (if at_once then arc_value rows.now else [])) }
    ensures waits { OnOk result (waiting.new ≡ (if at_once then waiting.old else with_rows waiting.old stream (waiting_of waiting.old stream ++ arc_value rows.now))) }
    ensures groups { OnErr result (groups.new ≡ groups.old) }
    ensures waiting { OnErr result (waiting.new ≡ waiting.old) }
{
    let Some(slice) = Slice::whole(Arc::try_clone(rows)?) else {
        return Ok(());
    };
    if at_once {
        groups.push_slice(alloc, slice)
    } else {
        waiting.add(stream, slice)
    }
}

/// Shows the first rows that wait for a stream, as many as `count` says. Want of memory leaves all as it was.
pub(crate) fn show_first(
    alloc: Global,
    groups: &mut Groups,
    waiting: &mut Waiting,
    stream: StreamRef,
    count: u64,
) -> Result<(), Memory>
    requires { length (joined groups.old) + length (take count (waiting_of waiting.old stream)) < 2 ^ 32 }
    ensures shown { OnOk result (joined groups.new ≡ joined groups.old ++ take count (waiting_of waiting.old stream)) }
    ensures waits { OnOk result (waiting.new ≡ with_rows waiting.old stream (drop count (waiting_of waiting.old stream))) }
    ensures groups { OnErr result (groups.new ≡ groups.old) }
    ensures waiting { OnErr result (waiting.new ≡ waiting.old) }
{
    let mut moved = Vec::new(alloc);
    waiting.first(stream, count, &mut moved)?;
    groups.push_all(alloc, moved)?;
    waiting.skip(stream, count);
    Ok(())
}

/// Shows all rows that wait for these streams, stream by stream. Want of memory leaves all as it was.
pub(crate) fn show_streams(
    alloc: Global,
    groups: &mut Groups,
    waiting: &mut Waiting,
    streams: &[StreamRef],
) -> Result<(), Memory>
    requires { length (joined groups.old) + length (flat_map (waiting_of waiting.old) streams.now) < 2 ^ 32 }
    ensures shown { OnOk result (joined groups.new ≡ joined groups.old ++ flat_map (waiting_of waiting.old) streams.now) }
    ensures waits { OnOk result (waiting.new ≡ fold with_none waiting.old streams.now) }
    ensures groups { OnErr result (groups.new ≡ groups.old) }
    ensures waiting { OnErr result (waiting.new ≡ waiting.old) }
{
    let moved = slices_of(alloc, waiting, streams)?;
    groups.push_all(alloc, moved)?;
    clear_streams(alloc, waiting, streams);
    Ok(())
}

// The slices that wait for these streams, stream by stream.
#[tactic(auto, using(std::proofs::lemmas::List::flat_map_more))]
fn slices_of(alloc: Global, waiting: &Waiting, streams: &[StreamRef]) -> Result<Vec<Slice>, Memory>
    ensures { IfOk result (λ moved. joined moved.items ≡ flat_map (waiting_of waiting.now) streams.now) }
{
    let mut moved = Vec::new(alloc);
    for stream in streams {
        waiting.all(*stream, &mut moved)?;
    }
    Ok(moved)
}

// Lets no row wait for these streams.
#[tactic(auto, using(std::proofs::lemmas::List::Sums::fold_more))]
fn clear_streams(alloc: Global, waiting: &mut Waiting, streams: &[StreamRef])
    ensures { waiting.new ≡ fold with_none waiting.old streams.now }
{
    for stream in streams {
        waiting.clear(alloc, *stream);
    }
}
