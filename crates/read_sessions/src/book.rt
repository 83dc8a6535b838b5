//! The read sessions of a table.

ghost use Rattle.std.specs.Prelude.{◌≡◌, ◌+◌, ◌<◌, ◌≤◌, ◌^◌, ℕ, [], ◌∷◌, ◌++◌, length, OnOk, OnErr, MatchOption};
ghost use Rattle.std.specs.Arc.{arc_value};
ghost use Rattle.table_model.specs.declared.entries.Entry.{Entry};
ghost use Rattle.table_model.specs.declared.entries.Change.TheVariants as change;
ghost use Rattle.table_model.specs.History.{History};
ghost use Rattle.table_model.specs.Visible.{visible_of};
ghost use Rattle.table_model.specs.Sessions.{begun};
ghost use Rattle.read_sessions.specs.Book.{find, read_node, AreRoots, CanSplit, Splits};
ghost use Rattle.read_sessions.specs.Stands.{Stands};

use crate::session::Session;
use column_types::{Fields, Pred};
use outside::Memory;
use std::alloc::Global;
use std::marker::Model;
use std::sync::Arc;
use table_model::ReadNode;

/// The read sessions of a table, numbered from 1 in the order of their beginning. Contracts see them in this order.
#[derive(Drop)]
pub struct SessionBook {
    sessions: Vec<Session>,
}

impl Model for SessionBook {
    ghost use Rattle.std.specs.Prelude.{List, ◌<◌, ◌^◌, length};
    ghost use Rattle.std.specs.Coded.{codes};
    ghost use Rattle.column_types.specs.contracts.predicate.Pred as pred_code;
    ghost use Rattle.table_model.specs.Sessions.{Opened};

    ghost Value = { List Opened };

    ghost coded = { Prim.hlevel (codes, pred_code.the_row.coded) };

    ghost view = { λ b. b.sessions.items };

    ghost invariant = { λ b. length b.sessions.items < 2 ^ 32 };
}

impl SessionBook {
    /// No session.
    pub fn new(alloc: Global) -> SessionBook
        ensures empty { result ≡ [] }
        ensures stands { Stands result [] }
    {
        SessionBook {
            sessions: Vec::new(alloc),
        }
    }

    /// How many sessions were begun.
    pub fn count(&self) -> u32
        ensures { result ≡ length self.now }
    {
        self.sessions.len() as u32
    }

    /// The session of this number; none where there is no such session.
    pub fn session(&self, number: u32) -> Option<&Session>
        ensures { MatchOption result (find self.now number ≡ None) (λ session. find self.now number ≡ Some session.now) }
    {
        if number == 0 {
            return None;
        }
        self.sessions.get(number as usize - 1)
    }

    /// A node of a session; none where there is no such session, or the session has no such node. It asks for no memory.
    pub fn node(&self, session: u32, node: u32) -> Option<ReadNode>
        ensures { result ≡ read_node self.now session node }
    {
        let session = self.session(session)?;
        let found = session.node(node)?;
        Some(ReadNode {
            moment: session.moment(),
            node: found,
            nodes: session.nodes(),
        })
    }
}

impl SessionBook {
    /// Begins a session with the next number: over the first `at` visible rows, with this many roots. Its moment is in
    /// microseconds since 1970-01-01. Want of memory leaves the book as it was.
    pub fn begin(
        &mut self,
        alloc: Global,
        moment: i64,
        at: u64,
        pred: Arc<Pred>,
        fields: Arc<Fields>,
        roots: u32,
    ) -> Result<(), Memory>
        requires room { length self.old + 1 < 2 ^ 32 }
        requires roots { AreRoots at roots }
        ensures ok { OnOk result (self.new ≡ self.old ++ begun moment at (arc_value pred) (arc_value fields) roots ∷ []) }
        ensures stands { OnOk result ((history : History) (entry : Entry) → Stands self.old history → at ≤ length (visible_of history)
            → entry.change ≡ change.Session (length self.old + 1) at (arc_value pred) (arc_value fields) roots → entry.moment ≡ moment
            → Stands self.new (history ++ entry ∷ [])) }
        ensures err { OnErr result (self.new ≡ self.old) }
    {
        let session = Session::begin(alloc, moment, at, pred, fields, roots)?;
        self.sessions.push(session)?;
        Ok(())
    }

    /// Splits a node of a session in two, which can be split. Want of memory leaves the book as it was.
    pub fn split(&mut self, session: u32, node: u32) -> Result<(), Memory>
        requires { CanSplit self.old session node }
        ensures ok { OnOk result (Splits self.old self.new session node) }
        ensures stands { OnOk result ((history : History) (entry : Entry) (left right : ℕ) → Stands self.old history
            → entry.change ≡ change.Split session node left right → Stands self.new (history ++ entry ∷ [])) }
        ensures err { OnErr result (self.new ≡ self.old) }
    {
        self.cut(session, node)?;
        Ok(())
    }

    fn cut(&mut self, session: u32, node: u32) -> Result<(), Memory>
        requires { CanSplit self.old session node }
        ensures ok { OnOk result (Splits self.old self.new session node) }
        ensures err { OnErr result (self.new ≡ self.old) }
    {
        self.sessions[session as usize - 1].split(node)
    }
}
