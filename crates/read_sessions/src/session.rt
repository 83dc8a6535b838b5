//! A read session.

ghost use Rattle.std.specs.Prelude.{◌≡◌, length, slice_get, IfOk, IfSome, OnOk, OnErr};
ghost use Rattle.std.specs.Arc.{arc_value};
ghost use Rattle.split_tree.specs.Nodes.{IsWithin};
ghost use Rattle.table_model.specs.Sessions.{begun, split_at};
ghost use Rattle.read_sessions.specs.Book.{AreRoots, CanCut};

use column_types::{Fields, Pred};
use outside::Memory;
use split_tree::{Node, Tree};
use std::alloc::Global;
use std::marker::Model;
use std::sync::Arc;

/// A read session. Contracts see when it was begun, its restriction and columns, and its nodes over the first of the
/// visible rows.
#[derive(Drop)]
pub struct Session {
    moment: i64,
    pred: Arc<Pred>,
    fields: Arc<Fields>,
    tree: Tree,
}

impl Model for Session {
    ghost use Rattle.std.specs.Arc.{arc_value};
    ghost use Rattle.std.specs.Coded.{codes};
    ghost use Rattle.column_types.specs.contracts.predicate.Pred as pred_code;
    ghost use Rattle.split_tree.specs.Nodes.{IsSplitTree};
    ghost use Rattle.table_model.specs.Sessions.{Opened};

    ghost Value = { Opened };

    ghost coded = { Prim.hlevel (codes, pred_code.the_row.coded) };

    ghost view = { λ s. record { moment = s.moment; pred = arc_value s.pred; fields = arc_value s.fields; nodes = s.tree } };

    ghost invariant = { λ s. IsSplitTree s.tree };
}

impl Session {
    // A session with this many roots over the first `at` visible rows.
    pub(crate) fn begin(
        alloc: Global,
        moment: i64,
        at: u64,
        pred: Arc<Pred>,
        fields: Arc<Fields>,
        roots: u32,
    ) -> Result<Session, Memory>
        requires { AreRoots at roots }
        ensures { IfOk result (λ session. session ≡ begun moment at (arc_value pred) (arc_value fields) roots) }
    {
        let tree = Tree::new(alloc, at, roots as i32)?;
        Ok(Session {
            moment,
            pred,
            fields,
            tree,
        })
    }

    /// When it was begun, in microseconds since 1970-01-01.
    pub fn moment(&self) -> i64
        ensures { result ≡ self.now.moment }
    {
        self.moment
    }

    /// The restriction of its rows.
    pub fn pred(&self) -> &Arc<Pred>
        ensures { arc_value result.now ≡ self.now.pred }
    {
        &self.pred
    }

    /// The columns of its rows.
    pub fn fields(&self) -> &Arc<Fields>
        ensures { arc_value result.now ≡ self.now.fields }
    {
        &self.fields
    }

    /// Of how many rows it is, before its restriction: the first visible ones.
    pub fn at(&self) -> u64
        ensures { result ≡ self.now.nodes.at }
    {
        self.tree.at()
    }

    /// How many of its nodes are roots: those with the least numbers.
    pub fn roots(&self) -> u32
        ensures { result ≡ self.now.nodes.roots }
    {
        self.tree.roots()
    }

    /// How many nodes it has. They are numbered from 0.
    pub fn nodes(&self) -> u32
        ensures { result ≡ length self.now.nodes.list }
    {
        self.tree.nodes()
    }

    /// A node; none where there is no node of this number.
    pub fn node(&self, node: u32) -> Option<Node>
        ensures node { result ≡ slice_get self.now.nodes.list node }
        ensures within { IfSome result (λ found. IsWithin self.now.nodes.at found.interval) }
    {
        self.tree.node(node)
    }

    // Splits a node in two. Want of memory leaves the session as it was.
    pub(crate) fn split(&mut self, node: u32) -> Result<(), Memory>
        requires { CanCut self.old node }
        ensures ok { OnOk result (self.new ≡ split_at node self.old) }
        ensures err { OnErr result (self.new ≡ self.old) }
    {
        self.tree.split(node)?;
        Ok(())
    }
}
