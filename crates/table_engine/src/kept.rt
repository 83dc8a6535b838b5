//! Entries as they are kept: the rows of an append stand behind an `Arc`, so that a group or what waits may hold them too,
//! and so do a session's restriction and columns, which the session holds too.

ghost use Rattle.std.specs.Prelude.{◌≡◌, IfOk};
ghost use Rattle.table_engine.specs.Changes.{is_read as is_read_change};
ghost use Rattle.table_engine.specs.Kept.{change_in};

use crate::copies::copy_rows;
use column_types::{Fields, Pred};
use outside::Memory;
use std::alloc::Global;
use std::marker::Model;
use std::sync::Arc;
use table_model::{Change, Entry, Refs, Rows, StreamKind, StreamRef};

/// What an entry changes.
#[derive(Drop)]
pub(crate) enum KeptChange {
    Create {
        stream: u32,
        kind: StreamKind,
    },
    Append {
        stream: StreamRef,
        offset: u64,
        rows: Arc<Rows>,
        bytes: u64,
    },
    Flush {
        stream: StreamRef,
        upto: u64,
    },
    Finalise {
        stream: StreamRef,
    },
    Commit {
        streams: Refs,
    },
    Session {
        session: u32,
        at: u64,
        pred: Arc<Pred>,
        fields: Arc<Fields>,
        roots: u32,
    },
    Split {
        session: u32,
        node: u32,
        left: u32,
        right: u32,
    },
}

impl KeptChange {
    // A change, whose rows are moved.
    fn of(alloc: Global, change: Change) -> Result<KeptChange, Memory>
        ensures { IfOk result (λ kept. change_in kept ≡ change) }
    {
        Ok(match change {
            Change::Create { stream, kind } => KeptChange::Create { stream, kind },
            Change::Append {
                stream,
                offset,
                rows,
                bytes,
            } => KeptChange::Append {
                stream,
                offset,
                rows: Arc::new(alloc, rows)?,
                bytes,
            },
            Change::Flush { stream, upto } => KeptChange::Flush { stream, upto },
            Change::Finalise { stream } => KeptChange::Finalise { stream },
            Change::Commit { streams } => KeptChange::Commit { streams },
            Change::Session {
                session,
                at,
                pred,
                fields,
                roots,
            } => KeptChange::Session {
                session,
                at,
                pred: Arc::new(alloc, pred)?,
                fields: Arc::new(alloc, fields)?,
                roots,
            },
            Change::Split {
                session,
                node,
                left,
                right,
            } => KeptChange::Split {
                session,
                node,
                left,
                right,
            },
        })
    }

    fn copy(&self, alloc: Global) -> Result<Change, Memory>
        ensures { IfOk result (λ copy. copy ≡ change_in self.now) }
    {
        Ok(match self {
            KeptChange::Create { stream, kind } => Change::Create {
                stream: *stream,
                kind: *kind,
            },
            KeptChange::Append {
                stream,
                offset,
                rows,
                bytes,
            } => Change::Append {
                stream: *stream,
                offset: *offset,
                rows: copy_rows(alloc, rows.as_slice())?,
                bytes: *bytes,
            },
            KeptChange::Flush { stream, upto } => Change::Flush {
                stream: *stream,
                upto: *upto,
            },
            KeptChange::Finalise { stream } => Change::Finalise { stream: *stream },
            KeptChange::Commit { streams } => Change::Commit {
                streams: Refs::from_slice(alloc, streams.as_slice())?,
            },
            KeptChange::Session {
                session,
                at,
                pred,
                fields,
                roots,
            } => Change::Session {
                session: *session,
                at: *at,
                pred: pred.copy(alloc)?,
                fields: fields.copy(alloc)?,
                roots: *roots,
            },
            KeptChange::Split {
                session,
                node,
                left,
                right,
            } => Change::Split {
                session: *session,
                node: *node,
                left: *left,
                right: *right,
            },
        })
    }
}

/// An accepted command. Contracts see the entry.
#[derive(Drop)]
pub(crate) struct KeptEntry {
    caller: u32,
    number: u32,
    moment: i64,
    change: KeptChange,
}

impl Model for KeptEntry {
    ghost use Rattle.std.specs.Coded.{codes};
    ghost use Rattle.column_types.specs.contracts.predicate.Pred as pred_code;
    ghost use Rattle.table_model.specs.declared.entries.Entry.{Entry};
    ghost use Rattle.table_engine.specs.Kept.{change_in};

    ghost Value = { Entry };

    ghost coded = { Prim.hlevel (codes, pred_code.the_row.coded) };

    ghost view = { λ k. record { caller = k.caller; number = k.number; moment = k.moment; change = change_in k.change } };
}

impl KeptEntry {
    /// An entry, whose rows are moved.
    pub(crate) fn of(alloc: Global, entry: Entry) -> Result<KeptEntry, Memory>
        ensures { IfOk result (λ kept. kept ≡ entry) }
    {
        Ok(KeptEntry {
            caller: entry.caller,
            number: entry.number,
            moment: entry.moment,
            change: KeptChange::of(alloc, entry.change)?,
        })
    }

    /// Who gave it.
    pub(crate) fn caller(&self) -> u32
        ensures { result ≡ self.now.caller }
    {
        self.caller
    }

    /// When it was accepted, in microseconds since 1970-01-01.
    pub(crate) fn moment(&self) -> i64
        ensures { result ≡ self.now.moment }
    {
        self.moment
    }

    /// What it changes.
    pub(crate) fn change(&self) -> &KeptChange
        ensures { change_in result.now ≡ self.now.change }
    {
        &self.change
    }

    /// Whether it begins a session or splits a node of one.
    pub(crate) fn is_read(&self) -> bool
        ensures { result ≡ is_read_change self.now.change }
    {
        match &self.change {
            KeptChange::Session { .. } | KeptChange::Split { .. } => true,
            KeptChange::Create { .. }
            | KeptChange::Append { .. }
            | KeptChange::Flush { .. }
            | KeptChange::Finalise { .. }
            | KeptChange::Commit { .. } => false,
        }
    }

    /// The entry, with a copy of its rows.
    pub(crate) fn copy(&self, alloc: Global) -> Result<Entry, Memory>
        ensures { IfOk result (λ copy. copy ≡ self.now) }
    {
        Ok(Entry {
            caller: self.caller,
            number: self.number,
            moment: self.moment,
            change: self.change.copy(alloc)?,
        })
    }
}
