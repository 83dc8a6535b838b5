//! What a reader does to the read streams of a session.

/// One thing that a reader does. A place counts in the cut as it then is, and begins again behind its end.
#[derive(Clone, Copy, Debug, PartialEq, Eq)]
pub enum Move {
    /// Read up to `count` rows of the node at this place, from its next offset on.
    Read { place: u32, count: u32 },
    /// Split the node at this place, and read both of its children in its stead. A node with one row or none stays.
    Split { place: u32 },
}
