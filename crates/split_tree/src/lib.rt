//! The split tree of a read session: how the positions of its rows are cut into the read streams that its readers use.
//!
//! A session over so many visible rows is cut into some roots, and each node can be split in the middle while it is
//! read, after which both of its children are read in its place. Nodes are numbered from 0 in the order of their making,
//! the left child first, and a node's interval of positions never changes.
//!
//! - [`Tree`] keeps the nodes of one session: [`Tree::split`] splits one, [`Tree::interval`] and [`Tree::children`] say
//!   what it is, and [`Tree::leaves`] which nodes aren't split.
//! - [`Node`], [`Interval`] and [`Cut`] are what it tells.
//! - [`children_join`], [`cuts_join`] and [`cuts_part`]: the rows of a node's children are its rows, and those of the nodes
//!   of any cut are the session's, each once, for any list of rows, any restriction and any choice of columns.
//! - [`later_nodes_stay`]: neither later splits nor later rows change a node that is there.
//! - [`leaves_are_one`], [`moves_cut`] and [`trees_are_halved`]: there is one list of leaves, replacing nodes by their children
//!   leaves a cut, and splits keep what holds of every tree. These six compute nothing: they are laws of the definitions.
//!
//! The fraction of a SplitReadStream request is a hint, and counts for nothing here. `specs/Intervals` says how positions
//! are cut, `specs/Nodes` which node has which number, `specs/Cuts` what a cut of a session is, `specs/Parts` which rows
//! a node has, and `specs/Laws` what holds of them.
#![tactic(auto)]

mod laws;
mod node;
mod tree;

pub use laws::{
    children_join, cuts_join, cuts_part, later_nodes_stay, leaves_are_one, moves_cut,
    trees_are_halved,
};
pub use node::{Cut, Interval, MOST_NODES, MOST_ROOTS, Node, ROOTS_UNASKED};
pub use tree::{Tree, root_nodes, roots_of};
