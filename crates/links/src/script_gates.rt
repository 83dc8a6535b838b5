//! A gate by which a test chooses who goes first.

use super::gates::{Gate, Moment};
use std::alloc::{AllocError, Global};
use std::sync::atomic::{AtomicBool, Ordering};
use std::thread;

/// A hold: the request with the number `request` of a connection isn't answered before the request with the number
/// `until_request` of another was.
#[derive(Clone, Copy, Debug, PartialEq, Eq)]
pub struct Hold {
    pub connection: u32,
    pub request: u32,
    pub until_connection: u32,
    pub until_request: u32,
}

// A hold, and whether the answer for which it waits was queued.
#[derive(Drop)]
struct Watch {
    hold: Hold,
    reached: AtomicBool,
}

impl Watch {
    // Notes that an answer was queued.
    fn hear(&self, connection: u32, request: u32) {
        if self.hold.until_connection == connection && self.hold.until_request == request {
            self.reached.store(true, Ordering::SeqCst);
        }
    }

    // Holds the request, if it is the one to hold, for so many looks at most. False where that wasn't enough.
    fn holds(&self, connection: u32, request: u32, turns: u32) -> bool {
        if self.hold.connection != connection || self.hold.request != request {
            return true;
        }
        for _ in 0..turns {
            if self.reached.load(Ordering::SeqCst) {
                return true;
            }
            thread::yield_now();
        }
        false
    }
}

/// A gate that holds requests until others are answered.
///
/// It looks so many times at most, and yields the processor between two looks. Then it lets the request go on, and
/// remembers that it gave up.
#[derive(Drop)]
pub struct ScriptGate {
    watches: Vec<Watch>,
    turns: u32,
    gave_up: AtomicBool,
}

impl ScriptGate {
    /// A gate with these holds, each of which looks `turns` times at most. Want of memory alone is refused.
    pub fn new(alloc: Global, holds: Vec<Hold>, turns: u32) -> Result<ScriptGate, AllocError> {
        let mut watches = Vec::with_capacity(alloc, holds.len())?;
        for hold in holds {
            let reached = AtomicBool::new(false);
            watches.push(Watch { hold, reached })?;
        }
        Ok(ScriptGate {
            watches,
            turns,
            gave_up: AtomicBool::new(false),
        })
    }

    /// Whether a hold let its request go on before the other was answered.
    pub fn gave_up(&self) -> bool {
        self.gave_up.load(Ordering::SeqCst)
    }
}

impl Gate for ScriptGate {
    fn reach(&self, connection: u32, request: u32, moment: Moment) {
        for watch in self.watches.iter() {
            match moment {
                Moment::After => watch.hear(connection, request),
                Moment::Before => {
                    if !watch.holds(connection, request, self.turns) {
                        self.gave_up.store(true, Ordering::SeqCst);
                    }
                }
            }
        }
    }
}
