//! The nodes of one session, by their numbers.

ghost use Rattle.std.specs.Prelude.{◌≡◌, ◌≤◌, ◌<◌, ◌+◌, ◌*◌, ◌/◌, ℕ, pos, ◌≤ℤ◌, nat_abs, length, IfOk, Some};
ghost use Rattle.std.specs.List.{slice_get, range_with_len};
ghost use Rattle.split_tree.specs.declared.node.TheConstants.{MOST_ROOTS};
ghost use Rattle.split_tree.specs.Intervals.{roots_of as roots_for, root as root_at};
ghost use Rattle.split_tree.specs.Nodes.{interval_of, children_of, node_of, root_nodes as root_nodes_of, unsplit as unsplit_node, Splits};
ghost use Rattle.split_tree.specs.Cuts.{AreLeaves};

use crate::node::{Cut, Interval, MOST_ROOTS, Node, ROOTS_UNASKED};
use outside::Memory;
use std::alloc::Global;
use std::marker::Model;

/// The split tree of one session. It has at least one node, and at most [`MOST_NODES`].
#[derive(Drop)]
pub struct Tree {
    at: u64,
    roots: u32,
    nodes: Vec<Node>,
}

impl Model for Tree {
    ghost use Rattle.split_tree.specs.Nodes.{Nodes, IsSplitTree};

    ghost Value = { Nodes };

    ghost view = { λ t. record { at = t.at; roots = t.roots; list = t.nodes.items } };

    ghost invariant = { λ t. IsSplitTree (record { at = t.at; roots = t.roots; list = t.nodes.items }) };
}

/// How many roots a session over `at` rows has that asks for `count`: [`ROOTS_UNASKED`] where that is 0, at most
/// [`MOST_ROOTS`] and no more than rows, but at least one.
pub fn roots_of(at: u64, count: u32) -> u32
    ensures exact { result ≡ roots_for at count }
    ensures some { 0 < result }
    ensures few { result ≤ MOST_ROOTS }
{
    let asked = if count == 0 { ROOTS_UNASKED } else { count };
    let most = u64::from(asked.min(MOST_ROOTS));
    most.min(at).max(1) as u32
}

// Where the i-th root begins, or the one before it ends.
fn bound(at: u64, roots: u32, i: u32) -> u64
    requires some { 0 < roots }
    requires there { i ≤ roots }
    ensures { result ≡ i * at / roots }
{
    (u128::from(i) * u128::from(at) / u128::from(roots)) as u64
}

// A node that isn't split.
fn unsplit(from: u64, upto: u64) -> Node
    ensures { result ≡ unsplit_node (record { from = from; upto = upto }) }
{
    Node {
        interval: Interval { from, upto },
        children: None,
    }
}

/// The nodes of a new session over the first `at` visible rows: roots that cut them into so many parts, whose lengths
/// differ by at most one.
pub fn root_nodes(alloc: Global, at: u64, roots: u32) -> Result<Vec<Node>, Memory>
    ensures { IfOk result (λ nodes. nodes.items ≡ (root_nodes_of at roots).list) }
{
    let mut nodes = Vec::new(alloc);
    nodes.reserve(roots as usize)?;
    for i in 0..roots {
        nodes.push(unsplit(bound(at, roots, i), bound(at, roots, i + 1)))?;
    }
    Ok(nodes)
}

// The numbers below `n`, in order.
fn numbers(alloc: Global, n: u32) -> Result<Vec<u32>, Memory>
    ensures { IfOk result (λ all. all.items ≡ range_with_len 0 n) }
{
    let mut all = Vec::new(alloc);
    all.reserve(n as usize)?;
    for i in 0..n {
        all.push(i)?;
    }
    Ok(all)
}

impl Tree {
    /// The tree of a new session over the first `at` visible rows: roots that cut them into parts, whose lengths differ by
    /// at most one. `count` is how many are asked for, [`ROOTS_UNASKED`] where it is 0; there are at most
    /// [`MOST_ROOTS`] and no more than rows, but at least one.
    pub fn new(alloc: Global, at: u64, count: i32) -> Result<Tree, Memory>
        requires { pos 0 ≤ℤ count }
        ensures { IfOk result (λ tree. tree ≡ root_nodes_of at (roots_for at (nat_abs count))) }
    {
        let roots = roots_of(at, count as u32);
        let nodes = root_nodes(alloc, at, roots)?;
        Ok(Tree { at, roots, nodes })
    }

    /// How many rows the session has, before its restriction.
    pub fn at(&self) -> u64
        ensures { result ≡ self.now.at }
    {
        self.at
    }

    /// How many of the nodes are roots: those with the least numbers.
    pub fn roots(&self) -> u32
        ensures { result ≡ self.now.roots }
    {
        self.roots
    }

    /// How many nodes there are. They are numbered from 0.
    pub fn nodes(&self) -> u32
        ensures { result ≡ length self.now.list }
    {
        self.nodes.len() as u32
    }

    /// The node of this number; none where there is no such node.
    pub fn node(&self, node: u32) -> Option<Node>
        ensures { result ≡ slice_get self.now.list node }
    {
        self.nodes.get(node as usize).copied()
    }

    /// The first position of a node that is there, and the one behind its last.
    pub fn interval(&self, node: u32) -> (u64, u64)
        requires { node < length self.now.list }
        ensures { result ≡ ((interval_of self.now node).from, (interval_of self.now node).upto) }
    {
        let interval = self.nodes[node as usize].interval;
        (interval.from, interval.upto)
    }

    /// The left and the right child of a node that is there; none where it isn't split.
    pub fn children(&self, node: u32) -> Option<(u32, u32)>
        requires { node < length self.now.list }
        ensures { result ≡ children_of self.now node }
    {
        self.nodes[node as usize].children
    }
}

impl Tree {
    /// Splits a node that is there in the middle, rounded down; its children have the next two numbers.
    ///
    /// A node of one row or none is `Small`, one that was split before answers its children again, and where two nodes
    /// more would be too many it is `Full`, in this order; each, and want of memory, leaves the tree as it was.
    pub fn split(&mut self, node: u32) -> Result<Cut, Memory>
        requires { node < length self.old.list }
        ensures { Splits self.old node result self.new }
    {
        let Node { interval, children } = self.nodes[node as usize];
        let cut = Node { interval, children }.cut(self.nodes.len() as u32);
        let Cut::Made { left, right } = cut else {
            return Ok(cut);
        };
        let middle = interval.from + (interval.upto - interval.from) / 2;
        self.nodes.reserve(2)?;
        let children = Some((left, right));
        self.nodes[node as usize] = Node { interval, children };
        self.nodes.push(unsplit(interval.from, middle))?;
        self.nodes.push(unsplit(middle, interval.upto))?;
        Ok(cut)
    }

    /// The nodes that aren't split, in the order of their positions.
    pub fn leaves(&self, alloc: Global) -> Result<Vec<u32>, Memory>
        ensures { IfOk result (λ leaves. AreLeaves self.now leaves.items) }
    {
        let mut behind = Vec::new(alloc);
        let mut open = numbers(alloc, self.roots)?;
        while let Some(node) = open.pop() {
            match self.nodes[node as usize].children {
                Some((left, right)) => {
                    open.push(left)?;
                    open.push(right)?;
                }
                None => behind.push(node)?,
            }
        }
        behind.reverse();
        Ok(behind)
    }
}
