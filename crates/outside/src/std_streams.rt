ghost use Rattle.std.specs.Prelude.{◌≡◌};

use super::sinks::{Sink, SinkWrite};
use super::sources::{Source, SourceRead};
use std::io::{Read, Write};

/// A source over a reader of std. It tells what the reader tells of its bytes, and each error of the
/// reader is a fault.
#[derive(Drop)]
pub struct StdSource<R> {
    reader: R,
    count: u64,
}

impl<R: Read> StdSource<R> {
    /// A source that reads from `reader`, and met no fault yet.
    pub fn new(reader: R) -> StdSource<R>
        ensures reader { result.reader ≡ reader }
        ensures count { result.count ≡ 0 }
    {
        StdSource { reader, count: 0 }
    }
}

impl<R: Read> Source for StdSource<R> {
    ghost left = { λ s. R.remaining s.reader };

    ghost faults = { λ s. s.count };

    fn read(&mut self, into: &mut [u8]) -> SourceRead {
        match self.reader.read(into) {
            Ok(0) => SourceRead::End,
            Ok(n) => SourceRead::Got(n),
            Err(_) => {
                self.count = self.count.saturating_add(1);
                SourceRead::Failed
            }
        }
    }
}

/// A sink over a writer of std. It tells what the writer tells of its bytes. Each error of the writer
/// is a fault, and so is a write of no byte.
#[derive(Drop)]
pub struct StdSink<W> {
    writer: W,
    count: u64,
}

impl<W: Write> StdSink<W> {
    /// A sink that writes to `writer`, and met no fault yet.
    pub fn new(writer: W) -> StdSink<W>
        ensures writer { result.writer ≡ writer }
        ensures count { result.count ≡ 0 }
    {
        StdSink { writer, count: 0 }
    }
}

impl<W: Write> Sink for StdSink<W> {
    ghost taken = { λ s. W.contents s.writer };

    ghost faults = { λ s. s.count };

    fn write(&mut self, from: &[u8]) -> SinkWrite {
        match self.writer.write(from) {
            Ok(0) | Err(_) => {
                self.count = self.count.saturating_add(1);
                SinkWrite::Failed
            }
            Ok(n) => SinkWrite::Took(n),
        }
    }
}
