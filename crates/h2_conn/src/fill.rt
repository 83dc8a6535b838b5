//! Filling a buffer with what is to be written.

ghost use Rattle.std.specs.Prelude.{◌≡◌, true, OnOk, OnErr};
ghost use Rattle.h2_conn.specs.Appended.{Appended};
ghost use Rattle.h2_conn.specs.Fills.{Fills, SendsSome};

use crate::conn::Conn;
use outside::Memory;
use std::alloc::Global;

impl Conn {
    /// Appends frame after frame to `out`, at most `room` bytes together, until no frame that is due fits what is left
    /// of the room. Each is the one that `produce_into` gives there.
    ///
    /// Where memory is refused, `out` has the whole frames that went before, and every further call of `take`,
    /// `produce` and `fill` is answered so.
    pub fn fill(&mut self, alloc: Global, out: &mut Vec<u8>, room: u32) -> Result<(), Memory>
        ensures filled { OnOk result (Appended out.old.items out.new.items (λ bytes. Fills self.old room bytes self.new)) }
        ensures cut { OnErr result (Appended out.old.items out.new.items (λ bytes. SendsSome self.old room bytes)) }
        ensures lost { OnErr result (self.new.is_lost ≡ true) }
        ensures stays_lost { self.old.is_lost ≡ true → OnOk result ⊥ }
    {
        let mut left = room;
        loop {
            let before = out.len();
            if !self.produce_into(alloc, out, left)? {
                return Ok(());
            }
            left -= (out.len() - before) as u32;
        }
    }
}
