//! Contexts for one who polls by hand.

use futures::task::{Context, Doorbell, Queue};
use outside::Memory;
use std::alloc::Global;
use std::io;
use std::random::RandomSource;
use std::sync::Wait;

/// Names each hand alike.
#[derive(Clone, Copy)]
struct Alike;

impl RandomSource for Alike {
    fn fill_bytes(&self, buf: &mut [u8]) -> io::Result<()> {
        buf.fill(1);
        Ok(())
    }
}

/// One who polls bodies in turns of its own, and so never waits to be woken. What a body was polled by stays the same hand.
#[derive(Drop)]
pub struct Hand {
    queue: Queue,
}

impl Hand {
    /// A hand that polls nothing yet.
    pub fn new(alloc: Global) -> Result<Hand, Memory> {
        match Queue::new(&(Alike, alloc), Doorbell::spinning()) {
            Ok(queue) => Ok(Hand { queue }),
            Err(_fault) => Err(Memory),
        }
    }

    /// A context for any number of polls. It ends by its `cancel`.
    pub fn begin<R: Wait>(&self, rt: &R) -> Result<Context<'_>, Memory> {
        self.queue.add()?.schedule();
        // The task was just put there.
        self.queue.next(rt).ok_or(Memory)
    }
}
