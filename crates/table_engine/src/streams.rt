//! What a change does to the streams of a table and to their rows.

ghost use Rattle.std.specs.Prelude.{◌≡◌, ◌++◌, ◌∷◌, [], OnOk, OnErr};
ghost use Rattle.table_model.specs.History.{History};
ghost use Rattle.table_model.specs.Streams.{is_committed_kind as is_committed_kind_of};
ghost use Rattle.write_streams.specs.Book.{find};
ghost use Rattle.write_streams.specs.Stands.{Stands};
ghost use Rattle.table_engine.specs.Streams.{CanChange, at_once as at_once_of, flushed_in as flushed_in_of};
ghost use Rattle.table_engine.specs.Waiting.{CanStore, Stores};

use crate::kept::{KeptChange, KeptEntry};
use crate::storing::{show_first, show_streams, store_rows};
use crate::waiting::Waiting;
use outside::Memory;
use row_groups::Groups;
use std::alloc::Global;
use table_model::{StreamKind, StreamRef, StreamState, Streams};
use write_streams::StreamBook;

/// Makes the change of an entry to the streams, to the visible rows and to those that wait. Want of memory leaves all as
/// it was.
pub(crate) fn change_streams(
    alloc: Global,
    book: &mut StreamBook,
    groups: &mut Groups,
    waiting: &mut Waiting,
    entry: &KeptEntry,
) -> Result<(), Memory>
    requires change { CanChange book.old entry.now.change }
    requires store { CanStore (find book.old) entry.now.change groups.old waiting.old }
    ensures stands { OnOk result ((history : History) → Stands book.old history → Stands book.new (history ++ entry.now ∷ [])) }
    ensures stores { OnOk result (Stores (find book.old) entry.now.change groups.old waiting.old groups.new waiting.new) }
    ensures book { OnErr result (book.new ≡ book.old) }
    ensures groups { OnErr result (groups.new ≡ groups.old) }
    ensures waiting { OnErr result (waiting.new ≡ waiting.old) }
{
    match entry.change() {
        KeptChange::Create { kind, .. } => {
            waiting.open(alloc)?;
            if let Err(memory) = book.add(alloc, *kind, entry.moment()) {
                waiting.close();
                return Err(memory);
            }
        }
        KeptChange::Append { stream, rows, .. } => {
            let at_once = is_at_once(*stream, book.state(*stream));
            store_rows(alloc, groups, waiting, *stream, at_once, rows)?;
            book.append(stream, rows.len() as u64);
        }
        KeptChange::Flush { stream, upto } => {
            let count = upto.saturating_sub(flushed_in(book.state(*stream)));
            show_first(alloc, groups, waiting, *stream, count)?;
            book.flush(stream, *upto);
        }
        KeptChange::Finalise { stream } => book.finalise(stream),
        KeptChange::Commit { streams } => {
            show_streams(alloc, groups, waiting, streams.as_slice())?;
            book.commit(streams.as_slice(), entry.moment());
        }
        KeptChange::Session { .. } | KeptChange::Split { .. } => unreachable!(),
    }
    Ok(())
}

// Whether rows appended to this stream are visible at once.
fn is_at_once(stream: StreamRef, state: Option<StreamState>) -> bool
    ensures { result ≡ at_once_of stream state }
{
    let is_committed = match state {
        Some(state) => is_committed_kind(state.kind),
        None => false,
    };
    stream.is_default() || is_committed
}

fn is_committed_kind(kind: StreamKind) -> bool
    ensures { result ≡ is_committed_kind_of kind }
{
    match kind {
        StreamKind::Committed => true,
        StreamKind::Pending | StreamKind::Buffered => false,
    }
}

fn flushed_in(state: Option<StreamState>) -> u64
    ensures { result ≡ flushed_in_of state }
{
    match state {
        Some(state) => state.flushed,
        None => 0,
    }
}
