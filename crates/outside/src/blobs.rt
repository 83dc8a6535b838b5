ghost use Rattle.std.specs.Prelude.{◌≡◌, ◌==◌, IfOk, length};

use super::wants::Memory;
use std::alloc::Global;
use std::marker::Model;

/// A run of bytes within a message, by its place.
#[derive(Clone, Copy, Debug, PartialEq, Eq)]
pub struct Span {
    /// The place of its first byte, from 0.
    pub start: u32,
    /// Its number of bytes.
    pub len: u32,
}

/// Bytes that a value owns. Contracts see the list of the bytes.
#[derive(Drop)]
pub struct Blob {
    bytes: Vec<u8>,
}

impl Model for Blob {
    ghost use Rattle.std.specs.Prelude.{List, ℕ};

    ghost Value = { List ℕ };

    ghost view = { λ b. b.bytes.items };
}

impl Blob {
    /// The blob of a vector's bytes, without a copy.
    pub fn from_vec(bytes: Vec<u8>) -> Blob
        ensures { result ≡ bytes.items }
    {
        Blob { bytes }
    }

    /// A copy of `bytes`.
    pub fn of(alloc: Global, bytes: &[u8]) -> Result<Blob, Memory>
        ensures { IfOk result (λ b. b ≡ bytes.now) }
    {
        Ok(Blob {
            bytes: Vec::from_slice(alloc, bytes)?,
        })
    }

    /// The bytes.
    pub fn bytes(&self) -> &[u8]
        ensures { result.now ≡ self.now }
    {
        self.bytes.as_slice()
    }

    /// The number of bytes.
    pub fn len(&self) -> usize
        ensures { result ≡ length self.now }
    {
        self.bytes.len()
    }

    /// Whether there is no byte.
    pub fn is_empty(&self) -> bool
        ensures { result ≡ (length self.now == 0) }
    {
        self.bytes.is_empty()
    }

    /// The bytes as a vector, without a copy.
    pub fn into_vec(self) -> Vec<u8>
        ensures { result.items ≡ self }
    {
        self.bytes
    }
}

/// A list of blobs that a value owns. Contracts see the list of their bytes.
#[derive(Drop)]
pub struct Blobs {
    blobs: Vec<Blob>,
}

impl Model for Blobs {
    ghost use Rattle.std.specs.Prelude.{List, ℕ};

    ghost Value = { List (List ℕ) };

    ghost view = { λ b. b.blobs.items };
}

impl Blobs {
    /// The list of a vector's blobs, without a copy.
    pub fn from_vec(blobs: Vec<Blob>) -> Blobs
        ensures { result ≡ blobs.items }
    {
        Blobs { blobs }
    }

    /// The blobs.
    pub fn blobs(&self) -> &[Blob]
        ensures { result.now ≡ self.now }
    {
        self.blobs.as_slice()
    }

    /// The blobs as a vector, without a copy.
    pub fn into_vec(self) -> Vec<Blob>
        ensures { result.items ≡ self }
    {
        self.blobs
    }
}
