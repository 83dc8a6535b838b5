//! The plain table: its history, walked anew for each answer.

ghost use Rattle.std.specs.Prelude.{◌≡◌, ◌≤ℤ◌, [], length};
ghost use Rattle.table_model.specs.declared.limits.TheConstants.{LATEST_READING};
ghost use Rattle.table_model.specs.Facts.{facts_of};
ghost use Rattle.table_model.specs.Legal.{Takes};
ghost use Rattle.table_model.specs.Table.{HasRoom, IsWithin, Stepped, Taken};

use super::answers::answer_to;
use super::commands::Command;
use super::entries::Entry;
use super::facts::{Facts, Sessions, Streams};
use super::replies::{Answer, Reply};
use super::session_walks::read_node;
use super::sessions::ReadNode;
use super::streams::{StreamRef, StreamState};
use super::visible_walks::visible_by;
use super::walks::{
    committed, created, end, entries_by, finalised, flushed, has_stream, kind, latest, sessions,
    streams, weight,
};
use column_types::Schema;
use outside::Memory;
use std::alloc::Global;
use std::marker::Model;

/// The plain slow table. Contracts see its columns and its history.
#[derive(Drop)]
pub struct Plain {
    schema: Schema,
    entries: Vec<Entry>,
}

impl Model for Plain {
    ghost use Rattle.std.specs.Coded.{codes};
    ghost use Rattle.column_types.specs.contracts.predicate.Pred as pred_code;
    ghost use Rattle.table_model.specs.Table.{Table, IsWithin};

    ghost Value = { Table };

    ghost coded = { Prim.hlevel (codes, pred_code.the_row.coded) };

    ghost view = { λ p. record { columns = p.schema; entries = p.entries.items } };

    ghost invariant = { λ p. IsWithin p.schema p.entries.items };
}

impl Plain {
    /// A table without an entry. It can't be refused.
    pub fn new(alloc: Global, schema: Schema) -> Plain
        ensures { result ≡ record { columns = schema; entries = [] } }
    {
        Plain {
            schema,
            entries: Vec::new(alloc),
        }
    }

    /// The columns.
    pub fn schema(&self) -> &Schema
        ensures { result.now ≡ self.now.columns }
    {
        &self.schema
    }

    /// The history.
    pub fn entries(&self) -> &[Entry]
        ensures { result.now ≡ self.now.entries }
    {
        self.entries.as_slice()
    }

    /// Answers a command of a caller, and adds its entry where it has one.
    ///
    /// `now` is a reading of the clock, in microseconds since 1970-01-01. Each refusal of the answer
    /// comes in its order, as a reply. Want of memory leaves the table as it was.
    pub fn step(
        &mut self,
        alloc: Global,
        caller: u32,
        command: &Command,
        now: i64,
    ) -> Result<Reply, Memory>
        requires taken { Takes self.old.columns command.now }
        requires in_time { now ≤ℤ LATEST_READING }
        ensures { Stepped self.old self.new caller command.now now result }
    {
        let asked = command.copy(alloc)?;
        self.step_with(alloc, caller, asked, now)
    }

    /// Answers a command like [`step`](Plain::step), and moves the rows of an append into the table.
    pub fn step_with(
        &mut self,
        alloc: Global,
        caller: u32,
        command: Command,
        now: i64,
    ) -> Result<Reply, Memory>
        requires taken { Takes self.old.columns command }
        requires in_time { now ≤ℤ LATEST_READING }
        ensures { Stepped self.old self.new caller command now result }
    {
        let facts = self.facts(caller);
        let answer = answer_to(alloc, &facts, &*self, command, now)?;
        self.take(answer)
    }

    // Adds the entry of an answer, if it has one, and gives its reply.
    fn take(&mut self, answer: Answer) -> Result<Reply, Memory>
        requires { HasRoom self.old answer }
        ensures { Taken self.old self.new answer result }
    {
        match answer {
            Answer::Accept(entry, reply) => {
                self.entries.push(entry)?;
                Ok(reply)
            }
            Answer::Same(reply) => Ok(reply),
            Answer::Refuse(refusal) => Ok(Reply::Refused(refusal)),
        }
    }

    // What the history says of the table and of a caller.
    fn facts(&self, caller: u32) -> Facts
        ensures value { result ≡ facts_of (length self.now.columns) self.now.entries caller }
        ensures within { IsWithin self.now.columns self.now.entries }
    {
        let columns = self.schema.columns().len() as u32;
        let entries = self.entries.as_slice();
        Facts {
            columns,
            entries: entries.len(),
            streams: streams(entries),
            sessions: sessions(entries),
            weight: weight(columns, entries),
            latest: latest(entries),
            caller,
            mine: entries_by(caller, entries),
        }
    }
}

impl Streams for Plain {
    ghost use Rattle.table_model.specs.Facts.{state_of};

    ghost state = { λ table stream. state_of table.entries stream };

    fn state(&self, stream: StreamRef) -> Option<StreamState> {
        let entries = self.entries.as_slice();
        if !has_stream(entries, stream) {
            return None;
        }
        Some(StreamState {
            kind: kind(entries, stream),
            created: created(entries, stream),
            committed: committed(entries, stream),
            rows: end(entries, stream),
            flushed: flushed(entries, stream),
            finalised: finalised(entries, stream),
        })
    }
}

impl Sessions for Plain {
    ghost use Rattle.table_model.specs.Sessions.{read_node_of, visible_by as visible_by_of};

    ghost read_node = { λ table session node. read_node_of table.entries session node };

    ghost visible_by = { λ table moment. visible_by_of table.entries moment };

    fn node(&self, alloc: Global, session: u32, node: u32) -> Result<Option<ReadNode>, Memory> {
        read_node(alloc, self.entries.as_slice(), session, node)
    }

    fn visible_by(&self, _alloc: Global, moment: i64) -> Result<u64, Memory> {
        Ok(visible_by(self.entries.as_slice(), moment))
    }
}
