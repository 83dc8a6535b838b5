//! What became of what was asked.

/// What became of what was asked on a stream.
#[derive(Clone, Copy, Debug, PartialEq, Eq)]
pub(crate) enum Asked {
    /// It is answered, and the call goes on.
    Goes,
    /// It is answered, and the call is over.
    Over,
    /// Memory was wanting: it may be answered, but its answer is not given.
    Memory,
}
