//! Fields from the front of a slice.

ghost use Rattle.std.specs.Prelude.{◌≡◌, ◌<◌, ◌≤◌, take, drop, length, MatchResult};
ghost use Rattle.wire_bytes.specs.Number.{number_of};

use std::marker::Model;
use thiserror::Error;

/// Fewer bytes remain than the field has.
#[derive(Clone, Copy, Debug, PartialEq, Eq, Error)]
#[error("{have} bytes remain of {need}")]
pub struct Short {
    /// The bytes that remain.
    pub have: usize,
    /// The bytes of the field.
    pub need: usize,
}

/// The bytes of a slice that are left to take. Contracts see the list of these.
#[derive(Drop)]
pub struct Cursor<'a> {
    rest: &'a [u8],
}

impl<'a> Model for Cursor<'a> {
    ghost use Rattle.std.specs.Prelude.{List, ℕ};

    ghost Value = { List ℕ };

    ghost view = { λ c. c.rest.now };
}

impl<'a> Cursor<'a> {
    ghost use Rattle.wire_bytes.specs.Field.{Takes};

    /// A cursor before the first byte.
    pub fn new(bytes: &'a [u8]) -> Cursor<'a>
        ensures { result ≡ bytes.now }
    {
        Cursor { rest: bytes }
    }

    /// The number of bytes that are left.
    pub fn left(&self) -> usize
        ensures { result ≡ length self.now }
    {
        self.rest.len()
    }

    /// Takes a field of one byte.
    pub fn take_u8(&mut self) -> Result<u8, Short>
        ensures { Takes 1 number_of self.old result self.new }
    {
        let (field, rest) = split(self.rest, 1)?;
        self.rest = rest;
        Ok(field[0])
    }

    /// Takes a field of three bytes.
    pub fn take_u24(&mut self) -> Result<u32, Short>
        ensures { Takes 3 number_of self.old result self.new }
    {
        let (field, rest) = split(self.rest, 3)?;
        self.rest = rest;
        Ok(u32::from_be_bytes([0, field[0], field[1], field[2]]))
    }

    /// Takes a field of four bytes.
    pub fn take_u32(&mut self) -> Result<u32, Short>
        ensures { Takes 4 number_of self.old result self.new }
    {
        let (field, rest) = split(self.rest, 4)?;
        self.rest = rest;
        Ok(u32::from_be_bytes([field[0], field[1], field[2], field[3]]))
    }

    /// Takes the next `n` bytes as they are.
    pub fn take(&mut self, n: usize) -> Result<&'a [u8], Short>
        ensures { MatchResult result (λ bytes. (n ≤ length self.old) × (bytes.now ≡ take n self.old) × (self.new ≡ drop n self.old))
            (λ short. (length self.old < n) × (short.have ≡ length self.old) × (short.need ≡ n) × (self.new ≡ self.old)) }
    {
        let (bytes, rest) = split(self.rest, n)?;
        self.rest = rest;
        Ok(bytes)
    }
}

/// The first `n` bytes and the bytes after them.
fn split(bytes: &[u8], n: usize) -> Result<(&[u8], &[u8]), Short>
    ensures { MatchResult result (λ parts. (n ≤ length bytes.now) × (parts.0.now ≡ take n bytes.now) × (parts.1.now ≡ drop n bytes.now) × (length parts.0.now ≡ n))
        (λ short. (length bytes.now < n) × (short.have ≡ length bytes.now) × (short.need ≡ n)) }
{
    if bytes.len() < n {
        return Err(Short {
            have: bytes.len(),
            need: n,
        });
    }
    Ok(bytes.split_at(n))
}
