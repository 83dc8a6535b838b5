//! What a history says of a node of a read session, by a walk over its entries.

ghost use Rattle.std.specs.Prelude.{◌≡◌, ◌≤◌, ◌<◌, ◌+◌, ◌^◌, length, All, Some, IfOk, IfSome, OnOk};
ghost use Rattle.split_tree.specs.Nodes.{interval_of as interval_at, unsplit as unsplit_node};
ghost use Rattle.table_model.specs.declared.limits.TheConstants.{MAX_ENTRIES as most_entries};
ghost use Rattle.table_model.specs.Sessions.{HasFewRoots, node_in, opened_after as opened_after_of, read_node_of, split_at};

use super::entries::{Change, Entry};
use super::sessions::ReadNode;
use column_types::{Fields, Pred};
use outside::Memory;
use split_tree::{Interval, Node, root_nodes};
use std::alloc::Global;
use std::marker::Model;

// A session as it stands behind some entries: all that the definition says of one. A look-up of nodes reads its moment and
// its nodes alone.
#[derive(Drop)]
struct OpenSession<'a> {
    moment: i64,
    pred: &'a Pred,
    fields: &'a Fields,
    at: u64,
    roots: u32,
    nodes: Vec<Node>,
}

impl<'a> Model for OpenSession<'a> {
    ghost use Rattle.std.specs.Coded.{codes};
    ghost use Rattle.column_types.specs.contracts.predicate.Pred as pred_code;
    ghost use Rattle.table_model.specs.Sessions.{Opened};

    ghost Value = { Opened };

    ghost coded = { Prim.hlevel (codes, pred_code.the_row.coded) };

    ghost view = { λ s. record { moment = s.moment; pred = s.pred.now; fields = s.fields.now; nodes = record { at = s.at; roots = s.roots; list = s.nodes.items } } };
}

/// What is known of a node of a session; `None` where there is no such session or node.
pub(crate) fn read_node(
    alloc: Global,
    entries: &[Entry],
    session: u32,
    node: u32,
) -> Result<Option<ReadNode>, Memory>
    requires few { length entries.now ≤ most_entries }
    requires rooted { All (λ entry. HasFewRoots entry.change) entries.now }
    ensures { IfOk result (λ found. found ≡ read_node_of entries.now session node) }
{
    let mut opened = None;
    for entry in entries {
        opened = opened_after(alloc, session, opened, entry)?;
    }
    Ok(match opened {
        Some(opened) => opened.node(node),
        None => None,
    })
}

// The session of a number, behind an entry.
fn opened_after<'a>(
    alloc: Global,
    number: u32,
    before: Option<OpenSession<'a>>,
    entry: &'a Entry,
) -> Result<Option<OpenSession<'a>>, Memory>
    requires { IfSome before (λ session. length session.nodes.list + 2 < 2 ^ 32) }
    ensures { IfOk result (λ after. after ≡ opened_after_of number before.entry entry.now.moment entry.now.change) }
{
    match &entry.change {
        Change::Session {
            session,
            at,
            pred,
            fields,
            roots,
        } if *session == number => Ok(Some(OpenSession {
            moment: entry.moment,
            pred,
            fields,
            at: *at,
            roots: *roots,
            nodes: root_nodes(alloc, *at, *roots)?,
        })),
        Change::Split { session, node, .. } if *session == number => match before {
            Some(mut opened) => {
                opened.split(*node)?;
                Ok(Some(opened))
            }
            None => Ok(None),
        },
        _ => Ok(before),
    }
}

// A node that isn't split.
fn unsplit(from: u64, upto: u64) -> Node
    ensures { result ≡ unsplit_node (record { from = from; upto = upto }) }
{
    Node {
        interval: Interval { from, upto },
        children: None,
    }
}

impl<'a> OpenSession<'a> {
    // The positions of a node, or none where there is no such node.
    fn interval(&self, node: u32) -> Interval
        ensures { result ≡ interval_at self.now.nodes node }
    {
        match self.nodes.get(node as usize) {
            Some(found) => found.interval,
            None => Interval { from: 0, upto: 0 },
        }
    }

    // Splits a node; its children have the next two numbers.
    fn split(&mut self, node: u32) -> Result<(), Memory>
        requires { length self.old.nodes.list + 2 < 2 ^ 32 }
        ensures { OnOk result (self.new ≡ split_at node self.old) }
    {
        let interval = self.interval(node);
        let left = self.nodes.len() as u32;
        if (node as usize) < self.nodes.len() {
            let children = Some((left, left + 1));
            self.nodes[node as usize] = Node { interval, children };
        }
        let middle = interval.from.midpoint(interval.upto);
        self.nodes.push(unsplit(interval.from, middle))?;
        self.nodes.push(unsplit(middle, interval.upto))?;
        Ok(())
    }

    // What is known of a node; `None` where there is no such node.
    fn node(&self, node: u32) -> Option<ReadNode>
        requires { length self.now.nodes.list < 2 ^ 32 }
        ensures { result ≡ node_in (Some self.now) node }
    {
        let nodes = self.nodes.len() as u32;
        let found = self.nodes.get(node as usize)?;
        Some(ReadNode {
            moment: self.moment,
            node: *found,
            nodes,
        })
    }
}
