//! What an entry changes beside the counts.

ghost use Rattle.std.specs.Prelude.{◌≡◌, ◌<◌, ◌++◌, ◌∷◌, [], OnOk, OnErr};
ghost use Rattle.table_model.specs.History.{History};
ghost use Rattle.write_streams.specs.Book.{find};
ghost use Rattle.write_streams.specs.Stands.{Stands};
ghost use Rattle.read_sessions.specs.Stands.{Stands as ReadsStand};
ghost use Rattle.read_sessions.specs.Snapshots.{IsPast};
ghost use Rattle.table_engine.specs.Changes.{CanRead, CanMake, IsOfVisible, Notes};
ghost use Rattle.table_engine.specs.Waiting.{CanStore, Stores};

use crate::kept::{KeptChange, KeptEntry};
use crate::streams::change_streams;
use crate::waiting::Waiting;
use outside::Memory;
use read_sessions::{SessionBook, Snapshots};
use row_groups::Groups;
use std::alloc::Global;
use std::sync::Arc;
use write_streams::StreamBook;

// Begins the session of an entry, or splits its node. Want of memory leaves the sessions as they were.
fn change_sessions(
    alloc: Global,
    sessions: &mut SessionBook,
    entry: &KeptEntry,
) -> Result<(), Memory>
    requires { CanRead sessions.old entry.now.change }
    ensures stands { OnOk result ((history : History) → ReadsStand sessions.old history → IsOfVisible history entry.now.change → ReadsStand sessions.new (history ++ entry.now ∷ [])) }
    ensures err { OnErr result (sessions.new ≡ sessions.old) }
{
    match entry.change() {
        KeptChange::Session {
            at,
            pred,
            fields,
            roots,
            ..
        } => {
            let pred = Arc::try_clone(pred)?;
            let fields = Arc::try_clone(fields)?;
            sessions.begin(alloc, entry.moment(), *at, pred, fields, *roots)
        }
        KeptChange::Split { session, node, .. } => sessions.split(*session, *node),
        KeptChange::Create { .. }
        | KeptChange::Append { .. }
        | KeptChange::Flush { .. }
        | KeptChange::Finalise { .. }
        | KeptChange::Commit { .. } => unreachable!(),
    }
}

/// Makes the change of an entry to the streams and their rows, or to the sessions. Want of memory leaves all as it was.
pub(crate) fn change_all(
    alloc: Global,
    book: &mut StreamBook,
    groups: &mut Groups,
    waiting: &mut Waiting,
    sessions: &mut SessionBook,
    entry: &KeptEntry,
) -> Result<(), Memory>
    requires change { CanMake book.old sessions.old entry.now.change }
    requires store { CanStore (find book.old) entry.now.change groups.old waiting.old }
    ensures stands { OnOk result ((history : History) → Stands book.old history → Stands book.new (history ++ entry.now ∷ [])) }
    ensures reads { OnOk result ((history : History) → ReadsStand sessions.old history → IsOfVisible history entry.now.change → ReadsStand sessions.new (history ++ entry.now ∷ [])) }
    ensures stores { OnOk result (Stores (find book.old) entry.now.change groups.old waiting.old groups.new waiting.new) }
    ensures book { OnErr result (book.new ≡ book.old) }
    ensures groups { OnErr result (groups.new ≡ groups.old) }
    ensures waiting { OnErr result (waiting.new ≡ waiting.old) }
    ensures sessions { OnErr result (sessions.new ≡ sessions.old) }
{
    if entry.is_read() {
        change_sessions(alloc, sessions, entry)?;
    } else {
        change_streams(alloc, book, groups, waiting, entry)?;
    }
    Ok(())
}

/// Keeps a snapshot of the visible rows where an entry of this moment showed some: there were `before`, and there are
/// `visible`. There has to be room.
pub(crate) fn note_rows(snapshots: &mut Snapshots, moment: i64, before: u64, visible: u64)
    requires room { 0 < snapshots.old.room }
    requires past { IsPast moment snapshots.old.list }
    ensures { Notes snapshots.old.list snapshots.new.list moment before visible }
{
    if before < visible {
        snapshots.add(moment, visible);
    }
}
