//! One flow-control window.

ghost use Rattle.std.specs.Prelude.{◌≡◌, ◌+ℤ◌, ◌-ℤ◌, ◌≤ℤ◌, ◌<ℤ◌, ◌^◌, ◌-◌, pos, MatchResult};
ghost use Rattle.h2_flow.specs.Range.{least, greatest};

use std::marker::Model;
use thiserror::Error;

/// The greatest window, in bytes (RFC 9113 section 6.9.1).
const GREATEST: i64 = 0x7fff_ffff;

/// The sum would be above 2,147,483,647.
#[derive(Clone, Copy, Debug, PartialEq, Eq, Error)]
#[error("a window of {value} bytes is above 2147483647")]
pub struct Overflow {
    /// The sum, in bytes.
    pub value: i64,
}

/// More bytes came than the window has.
#[derive(Clone, Copy, Debug, PartialEq, Eq, Error)]
#[error("{asked} bytes came, and the window has {had}")]
pub struct Overrun {
    /// The window, in bytes.
    pub had: i64,
    /// The bytes that came.
    pub asked: u32,
}

/// How many bytes may still be sent, or still be received: from -2,147,483,648 to 2,147,483,647.
///
/// A stream's send window of 65,535 from which 60,000 bytes were sent is 5,535. Where SETTINGS then lower the
/// initial size to 16,384, it is shifted by -49,151 to -43,616, and nothing is sent until increments of more
/// than 43,616 bytes have come (RFC 9113 section 6.9.2).
#[derive(Clone, Copy, Debug, PartialEq, Eq)]
pub struct Window {
    value: i64,
}

impl Model for Window {
    ghost use Rattle.std.specs.Prelude.{ℤ};
    ghost use Rattle.h2_flow.specs.Range.{IsWindow};

    ghost Value = { ℤ };

    ghost view = { λ w. w.value };

    ghost invariant = { λ w. IsWindow w.value };

    ghost inverse = { λ z. record { value = z } };
}

impl Window {
    ghost use Rattle.h2_flow.specs.Window.{Adds, Takes};

    /// The window that has `at` bytes.
    pub fn new(at: i64) -> Window
        requires low { least ≤ℤ at }
        requires high { at ≤ℤ greatest }
        ensures { result ≡ at }
    {
        Window { value: at }
    }

    /// The bytes that it has; a negative number is owed first.
    pub fn value(&self) -> i64
        ensures { result ≡ self.now }
    {
        self.value
    }

    /// Adds the increment of a WINDOW_UPDATE that the peer sent.
    pub fn grant(&mut self, add: u32) -> Result<(), Overflow>
        ensures { Adds self.old (pos add) result self.new }
    {
        self.value = sum(self.value, i64::from(add))?;
        Ok(())
    }

    /// Adds a change of the initial size to a stream's send window (RFC 9113 section 6.9.2).
    pub fn shift(&mut self, by: i64) -> Result<(), Overflow>
        requires low { (pos 0 -ℤ greatest) ≤ℤ by }
        requires high { by ≤ℤ greatest }
        requires sum { least ≤ℤ (self.old +ℤ by) }
        ensures { Adds self.old by result self.new }
    {
        self.value = sum(self.value, by)?;
        Ok(())
    }

    /// Takes the bytes that are sent.
    pub fn spend(&mut self, n: u32)
        requires { pos n ≤ℤ self.old }
        ensures { self.new ≡ self.old -ℤ pos n }
    {
        self.value -= i64::from(n);
    }

    /// Takes the bytes that came, where the window has as many.
    pub fn receive(&mut self, n: u32) -> Result<(), Overrun>
        ensures { Takes self.old n result self.new }
    {
        if i64::from(n) > self.value {
            return Err(Overrun {
                had: self.value,
                asked: n,
            });
        }
        self.value -= i64::from(n);
        Ok(())
    }

    /// Adds the increment of a WINDOW_UPDATE that is sent to the peer.
    pub fn credit(&mut self, n: u32) -> Result<(), Overflow>
        ensures { Adds self.old (pos n) result self.new }
    {
        self.value = sum(self.value, i64::from(n))?;
        Ok(())
    }
}

/// The sum, where it is a window.
fn sum(value: i64, by: i64) -> Result<i64, Overflow>
    requires value_low { least ≤ℤ value }
    requires value_high { value ≤ℤ greatest }
    requires by_low { (pos 0 -ℤ greatest) ≤ℤ by }
    requires by_high { by ≤ℤ pos (2 ^ 32 - 1) }
    ensures { MatchResult result (λ sum. (sum ≡ value +ℤ by) × (sum ≤ℤ greatest)) (λ fault. (greatest <ℤ (value +ℤ by)) × (fault.value ≡ value +ℤ by)) }
{
    let value = value + by;
    if value > GREATEST {
        return Err(Overflow { value });
    }
    Ok(value)
}
