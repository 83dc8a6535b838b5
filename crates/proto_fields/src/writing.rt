ghost use Rattle.std.specs.Prelude.{◌≡◌, ◌≤◌, ◌+◌, ◌*◌, ◌++◌, [], length, vec_len, vec_capacity, OnOk, OnErr};
ghost use Rattle.proto_fields.specs.Record.{Varint, Len, record_bytes, head_bytes};

use super::varints::{MOST_BYTES, put_varint};
use outside::{Blob, Memory};
use std::alloc::Global;
use std::marker::Model;

/// A message being written. Contracts see the bytes so far.
///
/// Tags and numbers are written as the shortest varints. A call that answers `Memory` has written
/// nothing.
#[derive(Drop)]
pub struct Out {
    bytes: Vec<u8>,
}

impl Model for Out {
    ghost use Rattle.std.specs.Prelude.{List, ℕ};

    ghost Value = { List ℕ };

    ghost view = { λ out. out.bytes.items };
}

impl Out {
    /// An empty message.
    pub fn new(alloc: Global) -> Out
        ensures { result ≡ [] }
    {
        Out {
            bytes: Vec::new(alloc),
        }
    }

    /// Writes a field of wire type 0. Its number is 1 to 536,870,911.
    pub fn varint(&mut self, _alloc: Global, number: u32, v: u64) -> Result<(), Memory>
        requires low { 1 ≤ number }
        requires high { number ≤ 536870911 }
        ensures ok { OnOk result (self.new ≡ self.old ++ record_bytes (record { number = number; payload = Varint v })) }
        ensures err { OnErr result (self.new ≡ self.old) }
        ensures size { length self.new ≤ length self.old + 15 }
    {
        self.bytes.reserve(2 * MOST_BYTES)?;
        put_varint(&mut self.bytes, number as u64 * 8);
        put_varint(&mut self.bytes, v);
        Ok(())
    }

    /// Writes a field of wire type 2. Its number is 1 to 536,870,911.
    pub fn bytes(&mut self, _alloc: Global, number: u32, v: &[u8]) -> Result<(), Memory>
        requires low { 1 ≤ number }
        requires high { number ≤ 536870911 }
        ensures ok { OnOk result (self.new ≡ self.old ++ record_bytes (record { number = number; payload = Len v.now })) }
        ensures err { OnErr result (self.new ≡ self.old) }
        ensures size { length self.new ≤ length self.old + length v.now + 15 }
    {
        self.bytes.reserve(2 * MOST_BYTES + v.len())?;
        put_head(&mut self.bytes, number, v.len());
        self.bytes.extend_from_slice(v).unwrap();
        Ok(())
    }

    /// Begins a field of wire type 2 that has so many bytes: its tag and its length, behind which the
    /// bytes are to be written. Its number is 1 to 536,870,911.
    pub fn head(&mut self, _alloc: Global, number: u32, len: usize) -> Result<(), Memory>
        requires low { 1 ≤ number }
        requires high { number ≤ 536870911 }
        ensures ok { OnOk result (self.new ≡ self.old ++ head_bytes number len) }
        ensures err { OnErr result (self.new ≡ self.old) }
    {
        self.bytes.reserve(2 * MOST_BYTES)?;
        put_head(&mut self.bytes, number, len);
        Ok(())
    }

    /// The message.
    pub fn finish(self) -> Blob
        ensures { result ≡ self }
    {
        Blob::from_vec(self.bytes)
    }
}

// Writes what stands in front of so many bytes. Room for twenty bytes is there.
fn put_head(bytes: &mut Vec<u8>, number: u32, len: usize)
    requires room { vec_len bytes.old + 2 * MOST_BYTES ≤ vec_capacity bytes.old }
    requires high { number ≤ 536870911 }
    ensures items { bytes.new.items ≡ bytes.old.items ++ head_bytes number len }
    ensures len { vec_len bytes.new ≤ vec_len bytes.old + 2 * MOST_BYTES }
    ensures capacity { vec_capacity bytes.old ≤ vec_capacity bytes.new }
{
    put_varint(bytes, number as u64 * 8 + 2);
    put_varint(bytes, len as u64);
}
