//! The door of a server.

ghost use Rattle.std.specs.Prelude.{◌≡◌, ℕ, ◌<◌, List, [], ◌∷◌, ◌+◌, Bool, Option};
ghost use Rattle.links.specs.Told.{more};
ghost use Rattle.doors.specs.Door.{Gives, out_after, shut_after, NextCause, ListenCause};

use links::Link;
use thiserror::Error;

/// What a [`Door`] answers where it is asked for the next link.
#[derive(Drop)]
pub enum Accepted<L> {
    /// A new connection: not closed, and nothing moved over it yet.
    Conn(L),
    /// No connection is left, and none comes any more.
    Closed,
    /// The door met a fault, and its count of faults rose.
    Failed,
}

/// The door couldn't listen, and its count of faults rose.
#[derive(Clone, Copy, Debug, PartialEq, Eq, Error)]
#[error("the door met a fault")]
pub struct DoorFailed;

/// Where connections come from.
///
/// Each link that it gives is out until one is handed back for it.
pub trait Door<L: Link> {
    // The links left to give, in order, where they are told.
    ghost left: { Self → Option (List L) };

    // The links handed back, in order, where they are told.
    ghost handed: { Self → Option (List L) };

    // How many links are out.
    ghost out: { Self → ℕ };

    // Whether it answered that it is closed.
    ghost shut: { Self → Bool };

    // How many faults were met so far.
    ghost faults: { Self → ℕ };

    /// Listens at `addr`, as `127.0.0.1:9050`. An error comes only where the count of faults rose.
    fn listen(&mut self, addr: &str) -> Result<(), DoorFailed>
        ensures left { left self.new ≡ left self.old }
        ensures handed { handed self.new ≡ handed self.old }
        ensures out { out self.new ≡ out self.old }
        ensures shut { shut self.new ≡ shut self.old }
        ensures cause { ListenCause (faults self.old) (faults self.new) result };

    /// Waits for the next connection. `Conn` gives the first link left, which isn't closed and has an
    /// empty log; it is out from then on. `Closed` comes only where none is left, and no `Conn` comes
    /// behind it. `Failed` comes only where the count of faults rose; it takes no link.
    fn next(&mut self) -> Accepted<L>
        ensures gives { Gives L.closed L.log result (left self.old) (left self.new) (shut self.old) }
        ensures handed { handed self.new ≡ handed self.old }
        ensures out { out self.new ≡ out_after result (out self.old) }
        ensures shut { shut self.new ≡ shut_after result (shut self.old) }
        ensures cause { NextCause (faults self.old) (faults self.new) result };

    /// Hands a link back, where one is out: the links handed back end with it.
    fn back(&mut self, link: L)
        requires { 0 < out self.old }
        ensures left { left self.new ≡ left self.old }
        ensures handed { handed self.new ≡ more (handed self.old) (link ∷ []) }
        ensures out { out self.new + 1 ≡ out self.old }
        ensures shut { shut self.new ≡ shut self.old }
        ensures faults { faults self.new ≡ faults self.old };
}
