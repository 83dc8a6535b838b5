//! A buffer that is written to a link, and one read from it.

ghost use Rattle.std.specs.Prelude.{◌≡◌, ◌<◌, ◌≤◌, length, false};
ghost use Rattle.links.specs.Link.{Reads, is_end, ReadCause};
ghost use Rattle.links.specs.Pieces.{TookPieces, taken_of, IsPart, ends_blocked, WrittenCause, GivesAtMost};

use super::link::{Link, LinkRead, LinkWrite};

/// How much of a buffer a link took.
#[derive(Clone, Copy, Debug, PartialEq, Eq)]
pub enum Written {
    /// All of it.
    Whole,
    /// The first so many bytes; the next wasn't ready to be taken.
    NotReady(usize),
    /// The first so many bytes; then the link met a fault.
    Failed(usize),
}

/// Writes `bytes`, which aren't empty, until the link took all of them, isn't ready or met a fault.
pub fn write_all<L: Link>(link: &mut L, bytes: &[u8]) -> Written
    requires some { 0 < length bytes.now }
    requires open { L.closed link.old ≡ false }
    ensures took { TookPieces (L.log link.old) (L.log link.new) (taken_of result bytes.now) }
    ensures part { IsPart result bytes.now }
    ensures left { L.left link.new ≡ L.left link.old }
    ensures ended { L.ended link.new ≡ L.ended link.old }
    ensures open { L.closed link.new ≡ false }
    ensures blocked { L.blocked link.new ≡ ends_blocked result }
    ensures cause { WrittenCause (L.faults link.old) (L.faults link.new) result }
{
    let mut taken = 0;
    while taken < bytes.len() {
        match link.write(&bytes[taken..]) {
            LinkWrite::Took(n) => taken += n,
            LinkWrite::NotReady => return Written::NotReady(taken),
            LinkWrite::Failed => return Written::Failed(taken),
        }
    }
    Written::Whole
}

/// Reads once, at most `most` bytes, to the front of `buffer`. Neither is 0 or empty.
pub fn read_at_most<L: Link>(link: &mut L, buffer: &mut [u8], most: usize) -> LinkRead
    requires some { 0 < most }
    requires room { 0 < length buffer.old }
    requires open { L.closed link.old ≡ false }
    ensures reads { Reads result buffer.new (L.log link.old) (L.log link.new) (L.left link.old) (L.left link.new) }
    ensures most { GivesAtMost most result }
    ensures ended { L.ended link.new ≡ is_end result }
    ensures open { L.closed link.new ≡ false }
    ensures ready { L.blocked link.new ≡ false }
    ensures cause { ReadCause (L.faults link.old) (L.faults link.new) result }
{
    let room = most.min(buffer.len());
    link.read(&mut buffer[..room])
}
