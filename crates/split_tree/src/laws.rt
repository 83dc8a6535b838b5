//! Laws of split trees, each the contract of a function that does nothing.

ghost use Rattle.split_tree.specs.Laws.{TreesAreHalved, ChildrenJoin, CutsJoin, CutsPart, LaterNodesStay, MovesCut, LeavesAreOne};

/// Roots are the tree of a new session, and each split of a node of two rows or more that isn't split keeps a tree one.
pub fn trees_are_halved()
    ensures { TreesAreHalved }
{}

/// The rows of a left child, and behind them those of the right one, are the rows of the node.
pub fn children_join<Row, Shown>()
    ensures { ChildrenJoin Row Shown }
{}

/// The rows of the nodes of any cut, one node after another, are the rows of the session.
pub fn cuts_join<Row, Shown>()
    ensures { CutsJoin Row Shown }
{}

/// The intervals of the nodes of any cut follow one another from position 0 to the end of the session.
pub fn cuts_part()
    ensures { CutsPart }
{}

/// Later splits change no node's interval, and they and later rows change no node's rows.
pub fn later_nodes_stay<Row, Shown>()
    ensures { LaterNodesStay Row Shown }
{}

/// Wherever nodes are replaced by their children, place after place, what is left is a cut.
pub fn moves_cut()
    ensures { MovesCut }
{}

/// A session has one list of leaves.
pub fn leaves_are_one()
    ensures { LeavesAreOne }
{}
