//! Read sessions, and what a history says of one.

use split_tree::Node;

/// What a history says of a node of a read session that is there.
#[derive(Clone, Copy, Debug, PartialEq, Eq)]
pub struct ReadNode {
    /// When the session was begun, in microseconds since 1970-01-01.
    pub moment: i64,
    /// The positions of the node's rows among the visible rows, and its children.
    pub node: Node,
    /// How many nodes the session has.
    pub nodes: u32,
}
