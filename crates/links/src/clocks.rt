//! The clock.

ghost use Rattle.std.specs.Prelude.{ℤ, pos, ◌≤ℤ◌, List, [], ◌∷◌, Option};
ghost use Rattle.links.specs.Told.{GoesOn};
ghost use Rattle.links.specs.declared.clocks.TheConstants.{LATEST_READING as latest};

/// The latest reading of a clock, in microseconds since 1970-01-01: six hours later is still in the
/// year 9999.
pub const LATEST_READING: i64 = 253_402_279_199_999_999;

/// Tells the time, and can't fail.
pub trait Clock {
    // The readings so far, where they are told.
    ghost readings: { Self → Option (List ℤ) };

    /// The time in microseconds since 1970-01-01, from 0 to [`LATEST_READING`]. It is one reading
    /// more; a clock may cease to tell its readings.
    fn now(&mut self) -> i64
        ensures told { GoesOn (readings self.old) (result ∷ []) (readings self.new) }
        ensures least { pos 0 ≤ℤ result }
        ensures greatest { result ≤ℤ latest };
}
