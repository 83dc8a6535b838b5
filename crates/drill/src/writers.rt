//! The four writers.

ghost use Rattle.std.specs.Prelude.{◌≡◌, ◌*◌, ◌<◌, ◌≤◌, IfOk};
ghost use Rattle.table_model.specs.Legal.{Takes};
ghost use Rattle.drill.specs.Rows.{batch_length, rows_before};
ghost use Rattle.drill.specs.Table.{Holds, IsDrill, columns};

use crate::batches::{batch_length, rows_from};
use crate::held::ask;
use outside::Memory;
use sqlite_items::Items;
use std::alloc::Global;
use std::sync::Wait;
use table_engine::Engine;
use table_model::{Command, Refs, Refusal, Reply, StreamKind, StreamRef, Why};
use turn_table::{Pass, Turn};

/// How many writers there are.
pub(crate) const WRITERS: u32 = 4;

/// The writer of a BUFFERED stream.
const BUFFERED: u32 = 1;

/// The writer of a PENDING stream.
const PENDING: u32 = 2;

/// The writer of the default stream, which gives no offset and sends each batch once.
const DEFAULT: u32 = 3;

/// The bytes that the message of a row has at most.
const ROW_BYTES: u64 = 11;

/// Makes the stream of a writer: of writer 0 it is COMMITTED.
fn stream_of<R: Wait>(
    rt: &R,
    alloc: Global,
    turn: &Turn<Engine>,
    held: &mut Option<Pass<Engine>>,
    writer: u32,
) -> Result<StreamRef, Memory>
    requires drill { IsDrill turn.now }
    requires held { Holds turn.now held.old }
    ensures held { Holds turn.now held.new }
{
    let kind = match writer {
        DEFAULT => return Ok(StreamRef::Default),
        PENDING => StreamKind::Pending,
        BUFFERED => StreamKind::Buffered,
        _ => StreamKind::Committed,
    };
    match ask(rt, alloc, turn, held, Command::Create { kind })? {
        Reply::Created { stream, moment: _ } => Ok(StreamRef::Number(stream)),
        _ => Ok(StreamRef::Other),
    }
}

/// The offset of a batch, whose first row has this number.
fn offset_of(writer: u32, first: u32) -> Option<i64> {
    if writer == DEFAULT {
        None
    } else {
        Some(i64::from(first))
    }
}

/// The bytes that the messages of a batch have at most.
fn bytes_of(writer: u32, batch: u32) -> u64
    requires writer { writer < 4 }
    requires batch { batch < 10000 }
    ensures { result ≡ 11 * batch_length writer batch }
{
    ROW_BYTES * u64::from(batch_length(writer, batch))
}

/// The append of a batch, whose first row has this number.
fn append_of(
    alloc: Global,
    writer: u32,
    stream: StreamRef,
    batch: u32,
    first: u32,
) -> Result<Command, Memory>
    requires writer { writer < 4 }
    requires batch { batch < 10000 }
    requires first { first ≡ rows_before writer batch }
    ensures { IfOk result (Takes columns) }
{
    let rows = rows_from(alloc, writer, batch, first)?;
    let offset = offset_of(writer, first);
    let bytes = bytes_of(writer, batch);
    Ok(Command::Append {
        stream,
        offset,
        rows: Items::from_vec(rows),
        bytes,
    })
}

/// Whether an append was refused since its rows were written before.
fn is_repeat(reply: &Reply) -> bool {
    matches!(
        reply,
        Reply::Refused(Refusal {
            code: _,
            why: Why::AlreadyWritten
        })
    )
}

/// Sends a batch, and says whether it was written before.
fn send<R: Wait>(
    rt: &R,
    alloc: Global,
    turn: &Turn<Engine>,
    held: &mut Option<Pass<Engine>>,
    writer: u32,
    stream: StreamRef,
    batch: u32,
    first: u32,
) -> Result<bool, Memory>
    requires drill { IsDrill turn.now }
    requires held { Holds turn.now held.old }
    requires writer { writer < 4 }
    requires batch { batch < 10000 }
    requires first { first ≡ rows_before writer batch }
    ensures held { Holds turn.now held.new }
{
    let append = append_of(alloc, writer, stream, batch, first)?;
    let reply = ask(rt, alloc, turn, held, append)?;
    Ok(is_repeat(&reply))
}

/// Sends a batch, a second time where its offset is given, and says how often it was written before.
fn send_batch<R: Wait>(
    rt: &R,
    alloc: Global,
    turn: &Turn<Engine>,
    held: &mut Option<Pass<Engine>>,
    writer: u32,
    stream: StreamRef,
    batch: u32,
    first: u32,
) -> Result<u64, Memory>
    requires drill { IsDrill turn.now }
    requires held { Holds turn.now held.old }
    requires writer { writer < 4 }
    requires batch { batch < 10000 }
    requires first { first ≡ rows_before writer batch }
    ensures held { Holds turn.now held.new }
{
    let once = send(rt, alloc, turn, held, writer, stream, batch, first)?;
    if writer == DEFAULT {
        return Ok(u64::from(once));
    }
    let twice = send(rt, alloc, turn, held, writer, stream, batch, first)?;
    Ok(u64::from(once) + u64::from(twice))
}

/// Shows the rows of a BUFFERED stream before this one.
fn show<R: Wait>(
    rt: &R,
    alloc: Global,
    turn: &Turn<Engine>,
    held: &mut Option<Pass<Engine>>,
    stream: StreamRef,
    end: u32,
) -> Result<(), Memory>
    requires drill { IsDrill turn.now }
    requires held { Holds turn.now held.old }
    ensures held { Holds turn.now held.new }
{
    let offset = Some(i64::from(end) - 1);
    ask(rt, alloc, turn, held, Command::Flush { stream, offset })?;
    Ok(())
}

/// The commit of one stream.
fn commit_of(alloc: Global, stream: StreamRef) -> Result<Command, Memory>
    ensures { IfOk result (Takes columns) }
{
    Ok(Command::Commit {
        streams: Refs::from_slice(alloc, &[stream])?,
    })
}

/// Finalises a stream and commits it twice.
fn commit<R: Wait>(
    rt: &R,
    alloc: Global,
    turn: &Turn<Engine>,
    held: &mut Option<Pass<Engine>>,
    stream: StreamRef,
) -> Result<(), Memory>
    requires drill { IsDrill turn.now }
    requires held { Holds turn.now held.old }
    ensures held { Holds turn.now held.new }
{
    ask(rt, alloc, turn, held, Command::Finalise { stream })?;
    ask(rt, alloc, turn, held, commit_of(alloc, stream)?)?;
    ask(rt, alloc, turn, held, commit_of(alloc, stream)?)?;
    Ok(())
}

/// Sends the batches of a writer, and says how often one was written before.
#[tactic(auto, using(crate::proofs::RowLemmas::rows_few, crate::proofs::RowLemmas::rows_more))]
pub(crate) fn write<R: Wait>(
    rt: &R,
    alloc: Global,
    turn: &Turn<Engine>,
    held: &mut Option<Pass<Engine>>,
    n: u32,
    writer: u32,
) -> Result<u64, Memory>
    requires drill { IsDrill turn.now }
    requires held { Holds turn.now held.old }
    requires n { n ≤ 10000 }
    requires writer { writer < 4 }
    ensures held { Holds turn.now held.new }
{
    let stream = stream_of(rt, alloc, turn, held, writer)?;
    let mut repeats = 0_u64;
    let mut first = 0;
    for batch in 0..n {
        let repeated = send_batch(rt, alloc, turn, held, writer, stream, batch, first)?;
        repeats = repeats.saturating_add(repeated);
        first += batch_length(writer, batch);
        if writer == BUFFERED {
            show(rt, alloc, turn, held, stream, first)?;
        }
    }
    if writer == PENDING {
        commit(rt, alloc, turn, held, stream)?;
    }
    Ok(repeats)
}
