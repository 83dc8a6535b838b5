//! The nodes of a split tree, and what a split answers.

ghost use Rattle.std.specs.Prelude.{◌≡◌};
ghost use Rattle.split_tree.specs.Nodes.{cut_by};

/// The most roots of a session.
pub const MOST_ROOTS: u32 = 100;

/// The roots of a session that asks for no number of them.
pub const ROOTS_UNASKED: u32 = 4;

/// The most nodes of a session, roots and children.
pub const MOST_NODES: u32 = 4_096;

/// Positions of rows: from `from` up to `upto`, which isn't among them.
#[derive(Clone, Copy, Debug, PartialEq, Eq)]
pub struct Interval {
    /// The first position, from 0.
    pub from: u64,
    /// The position behind the last one; `from` where there is none.
    pub upto: u64,
}

/// A node of a session's tree.
#[derive(Clone, Copy, Debug, PartialEq, Eq)]
pub struct Node {
    /// The positions of its rows.
    pub interval: Interval,
    /// The numbers of its left and its right child; none where it isn't split.
    pub children: Option<(u32, u32)>,
}

/// What the split of a node answers.
#[derive(Clone, Copy, Debug, PartialEq, Eq)]
pub enum Cut {
    /// It was split into these two.
    Made { left: u32, right: u32 },
    /// It was split into these two before.
    Already { left: u32, right: u32 },
    /// It has one row or none.
    Small,
    /// With two nodes more the session would have more than [`MOST_NODES`]; it has this many.
    Full { nodes: u32 },
}

impl Node {
    /// What its split answers in a tree of `nodes` nodes: `Small`, `Already`, `Full` or `Made`, the first that holds.
    pub fn cut(&self, nodes: u32) -> Cut
        ensures { result ≡ cut_by self.now nodes }
    {
        if self.interval.upto.saturating_sub(self.interval.from) < 2 {
            return Cut::Small;
        }
        if let Some((left, right)) = self.children {
            return Cut::Already { left, right };
        }
        if nodes > MOST_NODES - 2 {
            return Cut::Full { nodes };
        }
        let (left, right) = (nodes, nodes + 1);
        Cut::Made { left, right }
    }
}
