ghost use Rattle.std.specs.Prelude.{◌≡◌, ◌<◌, ◌≤◌, length, take, drop, Some, IsTrue};
ghost use Rattle.outside.specs.Streams.{IsReadWithin, ReadTakes, ReadCause};
ghost use Rattle.outside.specs.Scripts.{is_stream_script, ReadFollows};

use super::scripts::{Piece, Script};
use super::sources::{Source, SourceRead};
use std::alloc::Global;
use std::marker::Model;

/// A source in memory, which gives its input in the pieces of a script.
///
/// Each read uses one piece: it gives at most that many bytes, or meets a fault. A used-up script
/// gives all that is asked and there.
#[derive(Drop)]
pub struct MemSource {
    input: Vec<u8>,
    at: usize,
    script: Script,
    count: u64,
}

impl Model for MemSource {
    ghost use Rattle.std.specs.Prelude.{◌≤◌, drop, vec_len};
    ghost use Rattle.outside.specs.Scripts.{SourceState};

    ghost Value = { SourceState };

    ghost view = { λ s. record { bytes = drop s.at s.input.items; script = s.script; count = s.count } };

    ghost invariant = { λ s. s.at ≤ vec_len s.input };
}

impl MemSource {
    /// A source that gives `input` in these pieces. None of them is `NotReady`, and each `UpTo` is
    /// at least 1. It takes no memory.
    pub fn new(_alloc: Global, input: Vec<u8>, pieces: Vec<Piece>) -> MemSource
        requires { IsTrue (is_stream_script pieces.items) }
        ensures { result ≡ record { bytes = input.items; script = pieces.items; count = 0 } }
    {
        MemSource {
            input,
            at: 0,
            script: Script::new(pieces),
            count: 0,
        }
    }
}

// Copies `from` to the front of `into`, which has room for it.
fn copy_to_front(from: &[u8], into: &mut [u8])
    requires { length from.now ≤ length into.old }
    ensures front { take (length from.now) into.new ≡ from.now }
{
    into[..from.len()].copy_from_slice(from);
}

impl Source for MemSource {
    ghost left = { λ s. Some s.bytes };

    ghost faults = { λ s. s.count };

    fn read(&mut self, into: &mut [u8]) -> SourceRead
        requires { 0 < length into.old }
        ensures within { IsReadWithin result into.new }
        ensures takes { ReadTakes (Some self.old.bytes) (Some self.new.bytes) result into.new }
        ensures cause { ReadCause self.old.count self.new.count result }
        ensures follows { ReadFollows self.old result (length into.old) }
        ensures turn { self.new.script ≡ drop 1 self.old.script }
    {
        let room = into.len().min(self.input.len() - self.at);
        match self.script.next_allowed(room) {
            None => {
                self.count = self.count.saturating_add(1);
                SourceRead::Failed
            }
            Some(0) => SourceRead::End,
            Some(n) => {
                let end = self.at + n;
                copy_to_front(&self.input[self.at..end], into);
                self.at = end;
                SourceRead::Got(n)
            }
        }
    }
}
