//! The table that keeps what its answers ask.

ghost use Rattle.std.specs.Prelude.{◌≡◌, ◌≤ℤ◌, [], ◌∷◌, ◌++◌, length, IfOk, OnOk, OnErr};
ghost use Rattle.std.specs.Arc.{arc_value};
ghost use Rattle.row_groups.specs.Places.{joined};
ghost use Rattle.table_model.specs.declared.limits.TheConstants.{LATEST_READING};
ghost use Rattle.table_model.specs.Facts.{facts_of};
ghost use Rattle.table_model.specs.Legal.{Takes};
ghost use Rattle.table_model.specs.Table.{IsWithin, Stepped, Taken};
ghost use Rattle.table_model.specs.Visible.{visible_of};
ghost use Rattle.table_engine.specs.Keeps.{CanAdd, CanTake};
ghost use Rattle.table_engine.specs.Looks.{Looks};

use crate::callers::Callers;
use crate::changes::{change_all, note_rows};
use crate::copies::copy_entries;
use crate::kept::KeptEntry;
use crate::looks::{Held, Key, hold};
use crate::waiting::Waiting;
use column_types::Schema;
use outside::Memory;
use read_sessions::{SessionBook, Snapshots};
use row_groups::{Groups, Spine};
use std::alloc::Global;
use std::marker::Model;
use std::sync::Arc;
use table_model::{
    Answer, Command, Entry, Facts, ReadNode, Reply, Sessions, StreamRef, StreamState, Streams,
    answer_to, size_added,
};
use turn_table::Machine;
use write_streams::StreamBook;

/// The fast table. Contracts see its columns and its history.
#[derive(Drop)]
pub struct Engine {
    schema: Schema,
    entries: Vec<KeptEntry>,
    book: StreamBook,
    groups: Groups,
    waiting: Waiting,
    sessions: SessionBook,
    snapshots: Snapshots,
    callers: Callers,
    weight: u64,
    latest: i64,
}

impl Model for Engine {
    ghost use Rattle.std.specs.Coded.{codes};
    ghost use Rattle.column_types.specs.contracts.predicate.Pred as pred_code;
    ghost use Rattle.table_model.specs.Table.{Table};

    ghost Value = { Table };

    ghost coded = { Prim.hlevel (codes, pred_code.the_row.coded) };

    ghost use Rattle.table_engine.specs.Keeps.{Keeps, table_in};

    ghost view = { table_in };

    ghost invariant = { Keeps };
}

impl Streams for Engine {
    ghost use Rattle.table_model.specs.Facts.{state_of};

    ghost state = { λ table stream. state_of table.entries stream };

    fn state(&self, stream: StreamRef) -> Option<StreamState> {
        self.book.state(stream)
    }
}

impl Sessions for Engine {
    ghost use Rattle.table_model.specs.Sessions.{read_node_of, visible_by as visible_by_of};

    ghost read_node = { λ table session node. read_node_of table.entries session node };

    ghost visible_by = { λ table moment. visible_by_of table.entries moment };

    fn node(&self, _alloc: Global, session: u32, node: u32) -> Result<Option<ReadNode>, Memory> {
        Ok(self.sessions.node(session, node))
    }

    fn visible_by(&self, _alloc: Global, moment: i64) -> Result<u64, Memory> {
        Ok(self.snapshots.visible_by(moment))
    }
}

impl Engine {
    /// A table without an entry.
    pub fn new(alloc: Global, schema: Schema) -> Result<Engine, Memory>
        ensures { IfOk result (λ engine. engine ≡ record { columns = schema; entries = [] }) }
    {
        Ok(Engine {
            schema,
            entries: Vec::new(alloc),
            book: StreamBook::new(alloc),
            groups: Groups::new(alloc)?,
            waiting: Waiting::new(alloc),
            sessions: SessionBook::new(alloc),
            snapshots: Snapshots::new(alloc),
            callers: Callers::new(alloc),
            weight: 0,
            latest: 0,
        })
    }

    /// The columns.
    pub fn schema(&self) -> &Schema
        ensures { result.now ≡ self.now.columns }
    {
        &self.schema
    }

    /// The number of the visible rows.
    pub fn visible(&self) -> u64
        ensures { result ≡ length (visible_of self.now.entries) }
    {
        self.groups.len()
    }

    /// The visible rows so far, in their groups. It asks for no memory, and copies nothing but the `Arc`, which can be
    /// refused.
    pub fn spine(&self) -> Result<Arc<Spine>, Memory>
        ensures { IfOk result (λ spine. joined (arc_value spine) ≡ visible_of self.now.entries) }
    {
        self.groups.spine()
    }

    /// Tells of a node of a session: the rows that it reads, by a lease without a copy of a row, until when, and the moment
    /// of the history. None exactly where there is no such session, or the session has no such node.
    pub fn look(&self, key: &Key) -> Result<Option<Held>, Memory>
        ensures { IfOk result (Looks self.now.columns self.now.entries key.now) }
    {
        let Some(session) = self.sessions.session(key.session) else {
            return Ok(None);
        };
        let Some(node) = session.node(key.node) else {
            return Ok(None);
        };
        let spine = self.groups.spine()?;
        let held = hold(spine, session, node.interval, self.latest)?;
        Ok(Some(held))
    }

    /// The length of the history.
    pub fn entries(&self) -> u64
        ensures { result ≡ length self.now.entries }
    {
        self.entries.len() as u64
    }

    /// A copy of the history.
    pub fn history(&self, alloc: Global) -> Result<Vec<Entry>, Memory>
        ensures { IfOk result (λ history. history.items ≡ self.now.entries) }
    {
        copy_entries(alloc, self.entries.as_slice())
    }

    /// Answers a command of a caller, and adds its entry where it has one.
    ///
    /// `now` is a reading of the clock, in microseconds since 1970-01-01. Each refusal of the answer comes in its
    /// order, as a reply. Want of memory leaves the table as it was.
    pub fn step(
        &mut self,
        alloc: Global,
        caller: u32,
        command: Command,
        now: i64,
    ) -> Result<Reply, Memory>
        requires taken { Takes self.old.columns command }
        requires in_time { now ≤ℤ LATEST_READING }
        ensures { Stepped self.old self.new caller command now result }
    {
        let facts = self.facts(caller);
        let answer = answer_to(alloc, &facts, &*self, command, now)?;
        self.take(alloc, answer)
    }

    // Adds the entry of an answer, if it has one, and gives its reply.
    fn take(&mut self, alloc: Global, answer: Answer) -> Result<Reply, Memory>
        requires { CanTake self.old answer }
        ensures { Taken self.old self.new answer result }
    {
        match answer {
            Answer::Accept(entry, reply) => {
                self.add(alloc, entry)?;
                Ok(reply)
            }
            Answer::Same(reply) => Ok(reply),
            Answer::Refuse(refusal) => Ok(Reply::Refused(refusal)),
        }
    }

    // Adds an entry. All room is made before anything is changed.
    fn add(&mut self, alloc: Global, entry: Entry) -> Result<(), Memory>
        requires { CanAdd self.old entry }
        ensures ok { OnOk result (self.new ≡ record self.old { entries = self.old.entries ++ entry ∷ [] }) }
        ensures err { OnErr result (self.new ≡ self.old) }
    {
        let columns = self.schema.columns().len() as u32;
        let size = size_added(columns, &entry.change);
        let kept = KeptEntry::of(alloc, entry)?;
        let (caller, moment) = (kept.caller(), kept.moment());
        self.entries.reserve(1)?;
        self.callers.reserve()?;
        self.snapshots.reserve()?;
        let before = self.groups.len();
        change_all(
            alloc,
            &mut self.book,
            &mut self.groups,
            &mut self.waiting,
            &mut self.sessions,
            &kept,
        )?;
        note_rows(&mut self.snapshots, moment, before, self.groups.len());
        self.callers.add(caller);
        self.weight += size;
        self.latest = self.latest.max(moment);
        self.entries.push(kept)?;
        Ok(())
    }

    // What the history says of the table and of a caller.
    fn facts(&self, caller: u32) -> Facts
        ensures value { result ≡ facts_of (length self.now.columns) self.now.entries caller }
        ensures within { IsWithin self.now.columns self.now.entries }
    {
        Facts {
            columns: self.schema.columns().len() as u32,
            entries: self.entries.len(),
            streams: self.book.count(),
            sessions: self.sessions.count(),
            weight: self.weight,
            latest: self.latest,
            caller,
            mine: self.callers.count(caller),
        }
    }
}

impl Machine for Engine {
    ghost use Rattle.column_types.specs.declared.schema.Schema.{Schema};
    ghost use Rattle.table_model.specs.Legal.{Takes};
    ghost use Rattle.table_engine.specs.Turns.{Allows};
    ghost use Rattle.table_engine.specs.Looks.{Looks};

    type Command = Command;

    type Reply = Reply;

    type Entry = Entry;

    type Fixed = Schema;

    type Key = Key;

    type Look = Option<Held>;

    ghost history = { λ table. table.entries };

    ghost fixed = { λ table. table.columns };

    ghost use Rattle.std.specs.Prelude.{[]};

    ghost anything = { [] };

    ghost takes = { Takes };

    ghost caller_of = { λ entry. entry.caller };

    ghost allows = { Allows };

    ghost looks = { Looks };

    fn step(
        &mut self,
        alloc: Global,
        caller: u32,
        command: Command,
        now: i64,
    ) -> Result<Reply, Memory> {
        Engine::step(self, alloc, caller, command, now)
    }

    fn look(&self, key: &Key) -> Result<Option<Held>, Memory> {
        Engine::look(self, key)
    }

    fn entries(&self) -> u64 {
        Engine::entries(self)
    }
}
