ghost use Rattle.std.specs.Prelude.{◌≡◌, ◌<◌, length, drop, Some, IsTrue, []};
ghost use Rattle.outside.specs.Streams.{IsWriteWithin, WriteAdds, WriteCause};
ghost use Rattle.outside.specs.Scripts.{is_stream_script, WriteFollows};

use super::scripts::{Piece, Script};
use super::sinks::{Sink, SinkWrite};
use std::alloc::Global;
use std::marker::Model;

/// A sink in memory, which takes bytes in the pieces of a script.
///
/// Each write uses one piece: it takes at most that many bytes, or meets a fault. A used-up script
/// takes all. A write that finds no room for its bytes meets a fault too.
#[derive(Drop)]
pub struct MemSink {
    bytes: Vec<u8>,
    script: Script,
    count: u64,
}

impl Model for MemSink {
    ghost use Rattle.outside.specs.Scripts.{SinkState};

    ghost Value = { SinkState };

    ghost view = { λ s. record { bytes = s.bytes.items; script = s.script; count = s.count } };
}

impl MemSink {
    /// A sink that takes bytes in these pieces. None of them is `NotReady`, and each `UpTo` is at
    /// least 1. It can't be refused.
    pub fn new(alloc: Global, pieces: Vec<Piece>) -> MemSink
        requires { IsTrue (is_stream_script pieces.items) }
        ensures { result ≡ record { bytes = []; script = pieces.items; count = 0 } }
    {
        MemSink {
            bytes: Vec::new(alloc),
            script: Script::new(pieces),
            count: 0,
        }
    }

    /// The bytes taken so far.
    pub fn taken(&self) -> &[u8]
        ensures { result.now ≡ self.now.bytes }
    {
        self.bytes.as_slice()
    }
}

impl Sink for MemSink {
    ghost taken = { λ s. Some s.bytes };

    ghost faults = { λ s. s.count };

    fn write(&mut self, from: &[u8]) -> SinkWrite
        requires { 0 < length from.now }
        ensures within { IsWriteWithin result from.now }
        ensures adds { WriteAdds (Some self.old.bytes) (Some self.new.bytes) result from.now }
        ensures cause { WriteCause self.old.count self.new.count result }
        ensures follows { WriteFollows self.old result (length from.now) }
        ensures turn { self.new.script ≡ drop 1 self.old.script }
    {
        if let Some(n) = self.script.next_allowed(from.len())
            && self.bytes.extend_from_slice(&from[..n]).is_ok()
        {
            return SinkWrite::Took(n);
        }
        self.count = self.count.saturating_add(1);
        SinkWrite::Failed
    }
}
