//! A clock in memory.

ghost use Rattle.std.specs.Prelude.{◌≡◌, pos, ◌≤ℤ◌, [], ◌∷◌};
ghost use Rattle.outside.specs.Faults.{risen};
ghost use Rattle.links.specs.Told.{GoesOn};
ghost use Rattle.links.specs.Clock.{clamped, reading_at, told_by};
ghost use Rattle.links.specs.declared.clocks.TheConstants.{LATEST_READING as latest};

use super::clocks::{Clock, LATEST_READING};
use std::alloc::AllocError;
use std::marker::Model;

/// A clock in memory, which gives its times one after another.
///
/// Each reading is the next time, or 0 or [`LATEST_READING`] where that is beyond them. The last time
/// repeats; where there is none, each reading is 0. It tells its first 2^64 - 2 readings.
#[derive(Drop)]
pub struct MemClock {
    times: Vec<i64>,
    count: u64,
}

impl Model for MemClock {
    ghost use Rattle.links.specs.Clock.{ClockState};

    ghost Value = { ClockState };

    ghost view = { λ c. record { times = c.times.items; count = c.count } };
}

impl MemClock {
    /// A clock that gives these times, in microseconds since 1970-01-01. It takes no memory.
    pub fn new(times: Vec<i64>) -> MemClock
        ensures { result ≡ record { times = times.items; count = 0 } }
    {
        MemClock { times, count: 0 }
    }
}

/// A clone has the same times, and made as many readings. Those that follow are its own.
impl Clone for MemClock {
    ghost is_clone = { λ clock clone. clone ≡ clock };

    fn clone(&self) -> Result<MemClock, AllocError> {
        Ok(MemClock {
            times: self.times.clone()?,
            count: self.count,
        })
    }
}

// A time within the range of readings.
pub(crate) fn within_range(time: i64) -> i64
    ensures value { result ≡ clamped time }
    ensures least { pos 0 ≤ℤ result }
    ensures greatest { result ≤ℤ latest }
{
    time.clamp(0, LATEST_READING)
}

// The reading with this number.
fn reading(times: &[i64], number: u64) -> i64
    ensures { result ≡ reading_at times.now number }
{
    let last = times.len().saturating_sub(1);
    let at = number.min(last as u64) as usize;
    within_range(times.get(at).copied().unwrap_or(0))
}

impl Clock for MemClock {
    ghost readings = { told_by };

    fn now(&mut self) -> i64
        ensures told { GoesOn (told_by self.old) (result ∷ []) (told_by self.new) }
        ensures least { pos 0 ≤ℤ result }
        ensures greatest { result ≤ℤ latest }
        ensures reads { result ≡ reading_at self.old.times self.old.count }
        ensures counts { self.new ≡ record { times = self.old.times; count = risen self.old.count } }
    {
        let time = reading(self.times.as_slice(), self.count);
        self.count = self.count.saturating_add(1);
        time
    }
}
