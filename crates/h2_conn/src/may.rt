//! Whether a part of an answer may be given.

ghost use Rattle.std.specs.Prelude.{◌≡◌, ◌↔◌, IsSome, is_some, IsTrue};
ghost use Rattle.h2_streams.specs.Book.{find, state_in};
ghost use Rattle.h2_streams.specs.declared.stream.StreamState.TheVariants as is;
ghost use Rattle.h2_answers.specs.Waiting.{nothing, waiting_on, IsOpenEnded};

use crate::conn::Conn;
use h2_streams::StreamState;

impl Conn {
    /// Whether a stream lives (RFC 9113 section 5.1).
    pub fn is_live(&self, id: u32) -> bool
        ensures { result ≡ is_some (find self.now.streams id) }
    {
        self.streams.is_live(id)
    }

    /// Whether the answer on a stream may begin: the stream lives, and nothing waits on it.
    pub fn may_begin(&self, id: u32) -> bool
        ensures { IsTrue result ↔ (IsSome (find self.now.streams id) × (waiting_on self.now.answers id ≡ nothing)) }
    {
        self.is_live(id) && self.answers.has_none(id)
    }

    /// Whether a part of the answer may be given: the stream lives, and nothing that waits on it ends it.
    pub fn may_go_on(&self, id: u32) -> bool
        ensures { IsTrue result ↔ (IsSome (find self.now.streams id) × IsOpenEnded (waiting_on self.now.answers id)) }
    {
        self.is_live(id) && self.answers.is_open_ended(id)
    }

    /// Whether the client has ended a stream that lives (RFC 9113 section 5.1).
    pub fn has_ended(&self, id: u32) -> bool
        ensures { IsTrue result ↔ (state_in self.now.streams id ≡ is.Ended) }
    {
        matches!(self.streams.state_of(id), StreamState::Ended)
    }
}
