//! What an answer depends on.

ghost use Rattle.std.specs.Prelude.{◌≡◌, IfOk};

use super::sessions::ReadNode;
use super::streams::{StreamRef, StreamState};
use outside::Memory;
use std::alloc::Global;

/// What a history says of the table as a whole, and of the caller of a command.
#[derive(Clone, Copy, Debug, PartialEq, Eq)]
pub struct Facts {
    /// The columns of the table.
    pub columns: u32,
    /// Its entries.
    pub entries: usize,
    /// The streams that were created.
    pub streams: u32,
    /// The read sessions that were begun.
    pub sessions: u32,
    /// The sum of the sizes of its rows, in bytes.
    pub weight: u64,
    /// The moment of the history.
    pub latest: i64,
    /// Who gives the command.
    pub caller: u32,
    /// The entries of this caller.
    pub mine: u32,
}

/// A look-up of write streams.
pub trait Streams {
    ghost use Rattle.std.specs.Prelude.{Option};
    ghost use Rattle.table_model.specs.declared.streams.StreamRef.{StreamRef};
    ghost use Rattle.table_model.specs.declared.streams.StreamState.{StreamState};

    ghost state: { Self → StreamRef → Option StreamState };

    /// What is known of a stream; `None` where there is no such stream.
    fn state(&self, stream: StreamRef) -> Option<StreamState>
        ensures { result ≡ state self.now stream };
}

/// A look-up of read sessions, and of how many rows were visible at a moment.
pub trait Sessions {
    ghost use Rattle.std.specs.Prelude.{ℕ, ℤ, Option};
    ghost use Rattle.table_model.specs.declared.sessions.ReadNode.{ReadNode};

    ghost read_node: { Self → ℕ → ℕ → Option ReadNode };

    ghost visible_by: { Self → ℤ → ℕ };

    /// What is known of a node of a session; `None` where there is no such session or node.
    fn node(&self, alloc: Global, session: u32, node: u32) -> Result<Option<ReadNode>, Memory>
        ensures { IfOk result (λ found. found ≡ read_node self.now session node) };

    /// How many rows were visible at a moment, in microseconds since 1970-01-01.
    fn visible_by(&self, alloc: Global, moment: i64) -> Result<u64, Memory>
        ensures { IfOk result (λ count. count ≡ visible_by self.now moment) };
}
