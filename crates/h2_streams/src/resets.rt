//! The last 128 ids that the server reset.

ghost use Rattle.std.specs.Prelude.{◌≡◌, ◌↔◌, IsTrue, true, nat_eq, OnOk, OnErr, []};
ghost use Rattle.std.specs.List.{list_any};
ghost use Rattle.h2_streams.specs.Book.{remembering};

use circular_buffer::HeapCircularBuffer;
use std::alloc::{AllocError, Global};
use std::marker::Model;

/// How many resets are remembered.
const REMEMBERED: usize = 128;

/// The ids, in a ring that is made with the first stream.
#[derive(Drop)]
pub(crate) struct Resets {
    ring: Option<HeapCircularBuffer<u32>>,
}

impl Model for Resets {
    ghost use Rattle.h2_streams.specs.Kept.{ResetIds, ring_ids, has_ring, IsRingOf128};

    ghost Value = { ResetIds };

    ghost view = { λ r. record { ids = ring_ids r.ring; has_room = has_ring r.ring } };

    ghost invariant = { λ r. IsRingOf128 r.ring };
}

impl Resets {
    /// No ids, and no room yet.
    pub(crate) fn new() -> Resets
        ensures { result.ids ≡ [] }
    {
        Resets { ring: None }
    }

    /// Makes room, once and for all.
    pub(crate) fn make_room(&mut self, alloc: Global) -> Result<(), AllocError>
        ensures ids { self.new.ids ≡ self.old.ids }
        ensures room { OnOk result (self.new.has_room ≡ true) }
        ensures same { OnErr result (self.new ≡ self.old) }
    {
        if self.ring.is_none() {
            self.ring = Some(HeapCircularBuffer::with_capacity(alloc, REMEMBERED)?);
        }
        Ok(())
    }

    /// Remembers one more. There is room.
    pub(crate) fn add(&mut self, id: u32)
        requires { IsTrue self.old.has_room }
        ensures ids { self.new.ids ≡ remembering self.old.ids id }
        ensures room { self.new.has_room ≡ self.old.has_room }
    {
        if let Some(ring) = &mut self.ring {
            ring.push_back(id);
        }
    }

    /// Whether the id is among them.
    pub(crate) fn contains(&self, id: u32) -> bool
        ensures { result ≡ list_any (nat_eq id) self.now.ids }
    {
        match &self.ring {
            Some(ring) => ring.iter().any(|other| id == *other),
            None => false,
        }
    }
}
