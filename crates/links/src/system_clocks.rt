//! The machine's clock.

ghost use Rattle.std.specs.Prelude.{◌≡◌, ◌/◌, ℤ, pos, ◌≤ℤ◌, min, [], ◌∷◌, None, MatchResult};
ghost use Rattle.std.specs.Duration.{as_nanos};
ghost use Rattle.links.specs.Clock.{clamped};
ghost use Rattle.links.specs.declared.clocks.TheConstants.{LATEST_READING as latest};

use super::clocks::{Clock, LATEST_READING};
use std::alloc::AllocError;
use std::io;
use std::time::{self, Duration};

/// The machine's clock. It tells no readings.
///
/// Where the machine's clock can't be read, it gives its last reading again, and 0 before the first.
#[derive(Drop)]
pub struct SystemClock<C> {
    machine: C,
    last: i64,
    ghost least: { pos 0 ≤ℤ last },
    ghost greatest: { last ≤ℤ latest },
}

impl<C: time::Clock> SystemClock<C> {
    /// The clock of this machine, as `&rt`.
    pub fn new(machine: C) -> SystemClock<C> {
        SystemClock { machine, last: 0 }
    }
}

/// A clone has the same last reading.
impl<C: time::Clock + Clone> Clone for SystemClock<C> {
    ghost is_clone = { λ clock clone. clone.last ≡ clock.last };

    fn clone(&self) -> Result<SystemClock<C>, AllocError> {
        Ok(SystemClock {
            machine: self.machine.clone()?,
            last: self.last,
        })
    }
}

// The reading for a time since 1970-01-01, in microseconds, and `last` where there is none.
fn reading(since_1970: &io::Result<Duration>, last: i64) -> i64
    requires least { pos 0 ≤ℤ last }
    requires greatest { last ≤ℤ latest }
    ensures least { pos 0 ≤ℤ result }
    ensures greatest { result ≤ℤ latest }
    ensures time { MatchResult since_1970.now (λ t. result ≡ clamped (pos (as_nanos t / 1000))) (λ _. result ≡ last) }
{
    match since_1970 {
        Ok(time) => time.as_micros().min(LATEST_READING as u128) as i64,
        Err(_) => last,
    }
}

impl<C: time::Clock> Clock for SystemClock<C> {
    ghost readings = { λ _. None };

    fn now(&mut self) -> i64 {
        self.last = reading(&self.machine.since_1970(), self.last);
        self.last
    }
}
