//! The link of a connection.

ghost use Rattle.std.specs.Prelude.{◌≡◌, ◌<◌, ◌≤◌, ℕ, List, Bool, false, true, Option, length};
ghost use Rattle.links.specs.Link.{Moved, Reads, is_end, ReadCause, Writes, WriteCause, is_blocked, Waits};

use thiserror::Error;

/// What one read of a [`Link`] answers.
#[derive(Clone, Copy, Debug, PartialEq, Eq)]
pub enum LinkRead {
    /// This many bytes were given, at least one.
    Got(usize),
    /// None is there yet.
    NotReady,
    /// No byte is left, and every later read answers so.
    End,
    /// The link met a fault, and its count of faults rose.
    Failed,
}

/// What one write to a [`Link`] answers.
#[derive(Clone, Copy, Debug, PartialEq, Eq)]
pub enum LinkWrite {
    /// The first so many bytes were taken, at least one.
    Took(usize),
    /// None can be taken yet.
    NotReady,
    /// The link met a fault, and its count of faults rose.
    Failed,
}

/// A wait met a fault, and the link's count of faults rose.
#[derive(Clone, Copy, Debug, PartialEq, Eq, Error)]
#[error("the link met a fault")]
pub struct LinkFailed;

/// The two ends of a connection's bytes.
///
/// A link may read ahead and write behind inside itself; it has written all that it took when it
/// waits, when a read would wait, and when it is closed.
pub trait Link {
    // What moved over it, in order, where it is told.
    ghost log: { Self → Option (List Moved) };

    // The bytes left to read, where they are told.
    ghost left: { Self → Option (List ℕ) };

    // Whether a read answered that no byte is left.
    ghost ended: { Self → Bool };

    // Whether it is closed.
    ghost closed: { Self → Bool };

    // Whether its last call was a write that wasn't ready.
    ghost blocked: { Self → Bool };

    // How many faults were met so far.
    ghost faults: { Self → ℕ };

    /// Reads into `into`, which isn't empty. `Got(n)` has put the first `n` of the bytes left at its
    /// front and has taken them away. `End` comes only where no byte is left, and from then on.
    /// `Failed` comes only where the count of faults rose; it takes no byte.
    fn read(&mut self, into: &mut [u8]) -> LinkRead
        requires some { 0 < length into.old }
        requires open { closed self.old ≡ false }
        ensures reads { Reads result into.new (log self.old) (log self.new) (left self.old) (left self.new) }
        ensures ended { ended self.new ≡ is_end result }
        ensures stays_ended { ended self.old ≡ true → result ≡ LinkRead.End }
        ensures open { closed self.new ≡ false }
        ensures ready { blocked self.new ≡ false }
        ensures cause { ReadCause (faults self.old) (faults self.new) result };

    /// Offers `from`, which isn't empty. `Took(n)` has taken its first `n` bytes. `Failed` comes only
    /// where the count of faults rose; it takes no byte.
    fn write(&mut self, from: &[u8]) -> LinkWrite
        requires some { 0 < length from.now }
        requires open { closed self.old ≡ false }
        ensures writes { Writes result from.now (log self.old) (log self.new) }
        ensures left { left self.new ≡ left self.old }
        ensures ended { ended self.new ≡ ended self.old }
        ensures open { closed self.new ≡ false }
        ensures blocked { blocked self.new ≡ is_blocked result }
        ensures cause { WriteCause (faults self.old) (faults self.new) result };

    /// Waits until the link can be read or, where it is wanted, written. The log tells of the wait,
    /// unless the call before it was a write that wasn't ready. An error comes only where the count of
    /// faults rose.
    fn wait(&mut self, want_write: bool) -> Result<(), LinkFailed>
        requires { closed self.old ≡ false }
        ensures waits { Waits result (blocked self.old) (log self.old) (log self.new) (faults self.old) (faults self.new) }
        ensures left { left self.new ≡ left self.old }
        ensures ended { ended self.new ≡ ended self.old }
        ensures open { closed self.new ≡ false }
        ensures ready { blocked self.new ≡ false };

    /// Ends the connection.
    fn close(&mut self)
        ensures closed { closed self.new ≡ true }
        ensures log { log self.new ≡ log self.old }
        ensures left { left self.new ≡ left self.old }
        ensures ended { ended self.new ≡ ended self.old }
        ensures ready { blocked self.new ≡ false }
        ensures faults { faults self.new ≡ faults self.old };
}
