ghost use Rattle.std.specs.Prelude.{◌<◌, ◌≤◌, length, None};
ghost use Rattle.outside.specs.Streams.{IsReadWithin, ReadTakes, ReadCause, IsWriteWithin, WriteAdds, WriteCause};

use doors::MemDoor;
use links::{MemClock, MemLink, OpenGate};
use outside::{MemSink, MemSource, Sink, SinkWrite, Source, SourceRead};
use program::run;
use std::process::Abort;
use std::sync::Wait;
use std::test::Fail;
use std::thread::Threads;
use table_model::{MAX_ENTRIES, MAX_WEIGHT, ROW_OVERHEAD};

/// A source in memory that gives at most so many bytes at a time, and meets a fault where its calls
/// are used up.
#[derive(Drop)]
struct Slow {
    inner: MemSource,
    most: usize,
    calls: usize,
    count: u64,
}

impl Source for Slow {
    ghost left = { λ _. None };

    ghost faults = { λ s. s.count };

    fn read(&mut self, into: &mut [u8]) -> SourceRead {
        let want = into.len().min(self.most.max(1));
        if self.calls > 0 {
            self.calls -= 1;
            match self.inner.read(&mut into[..want]) {
                SourceRead::Failed => {}
                answer => return answer,
            }
        }
        self.count = self.count.saturating_add(1);
        SourceRead::Failed
    }
}

/// A sink in memory of the same kind.
#[derive(Drop)]
struct Narrow {
    inner: MemSink,
    most: usize,
    calls: usize,
    count: u64,
}

impl Sink for Narrow {
    ghost taken = { λ _. None };

    ghost faults = { λ s. s.count };

    fn write(&mut self, from: &[u8]) -> SinkWrite {
        let want = from.len().min(self.most.max(1));
        if self.calls > 0 {
            self.calls -= 1;
            match self.inner.write(&from[..want]) {
                SinkWrite::Failed => {}
                answer => return answer,
            }
        }
        self.count = self.count.saturating_add(1);
        SinkWrite::Failed
    }
}

const MANY: usize = 1_000;

/// The status of these words over a source and a sink. No byte comes over the connection.
pub(crate) fn run_over<R: Threads + Wait + Sync + AllocGlobal, I: Source, O: Sink>(
    rt: &R,
    words: &[String],
    source: &mut I,
    sink: &mut O,
) -> u8 {
    let alloc = rt.alloc();
    let mut pipe = MemLink::new(alloc, Vec::new(alloc), Vec::new(alloc), Vec::new(alloc));
    let mut door = MemDoor::new(alloc, Vec::new(alloc), None);
    let mut clock = MemClock::new(Vec::new(alloc));
    run(
        rt, alloc, words, &mut door, &mut pipe, &mut clock, &OpenGate, source, sink,
    )
}

/// What the command `body` writes for an input, and its status.
fn answer<R: Threads + Wait + Sync + AllocGlobal>(
    rt: &R,
    input: &[u8],
    most: usize,
    reads: usize,
    writes: usize,
) -> Result<(u8, Narrow), Fail> {
    let alloc = rt.alloc();
    let words = vec![in alloc; String::from_str(alloc, "body")?]?;
    let mut source = Slow {
        inner: MemSource::new(alloc, input.to_vec(alloc)?, Vec::new(alloc)),
        most,
        calls: reads,
        count: 0,
    };
    let mut sink = Narrow {
        inner: MemSink::new(alloc, Vec::new(alloc)),
        most,
        calls: writes,
        count: 0,
    };
    let status = run_over(rt, words.as_slice(), &mut source, &mut sink);
    Ok((status, sink))
}

/// Whole and byte by byte, the input has this output and status.
fn expect<R: Abort + Threads + Wait + Sync + AllocGlobal>(
    rt: &R,
    input: &[u8],
    output: &[u8],
    status: u8,
) -> Result<(), Fail> {
    for most in [MANY, 1] {
        let (found, sink) = answer(rt, input, most, MANY, MANY)?;
        assert_eq!(rt; found, status);
        assert_eq!(rt; sink.inner.taken(), output);
    }
    Ok(())
}

const FIRST: &[u8] = b"\x00\x00\x00\x00\x0a\x12\x00\x22\x06\x12\x04\x0a\x02\x08\x01";

const FIRST_TWICE: &[u8] =
    b"\x00\x00\x00\x00\x0a\x12\x00\x22\x06\x12\x04\x0a\x02\x08\x01\x00\x00\x00\x00\x0a\x12\x00\x22\x06\x12\x04\x0a\x02\x08\x01";

const AT_TWO_THEN_ONE: &[u8] =
    b"\x00\x00\x00\x00\x0a\x12\x00\x22\x06\x12\x04\x0a\x02\x08\x01\x00\x00\x00\x00\x0c\x12\x02\x08\x02\x22\x06\x12\x04\x0a\x02\x08\x01\x00\x00\x00\x00\x0c\x12\x02\x08\x01\x22\x06\x12\x04\x0a\x02\x08\x01";

const MINUS_ONE: &[u8] =
    b"\x00\x00\x00\x00\x15\x12\x0b\x08\xff\xff\xff\xff\xff\xff\xff\xff\xff\x01\x22\x06\x12\x04\x0a\x02\x08\x01";

#[test]
fn offsets_are_kept(rt: HostRuntime) -> Result<(), Fail> {
    expect(&rt, FIRST, b"\x00\x00\x00\x00\x04\x0a\x02\x0a\x00", 0)?;
    expect(
        &rt,
        FIRST_TWICE,
        b"\x00\x00\x00\x00\x04\x0a\x02\x0a\x00\x00\x00\x00\x00\x1c\x12\x1a\x08\x06\x12\x16offset already written",
        0,
    )?;
    expect(
        &rt,
        AT_TWO_THEN_ONE,
        b"\x00\x00\x00\x00\x04\x0a\x02\x0a\x00\x00\x00\x00\x00\x19\x12\x17\x08\x0b\x12\x13offset past the end\x00\x00\x00\x00\x06\x0a\x04\x0a\x02\x08\x01",
        0,
    )
}

#[test]
fn refusals_are_replies(rt: HostRuntime) -> Result<(), Fail> {
    expect(
        &rt,
        b"\x00\x00\x00\x00\x00",
        b"\x00\x00\x00\x00\x0d\x12\x0b\x08\x03\x12\x07no rows",
        0,
    )?;
    expect(
        &rt,
        MINUS_ONE,
        b"\x00\x00\x00\x00\x15\x12\x13\x08\x03\x12\x0fnegative offset",
        0,
    )
}

#[test]
fn a_body_ends_in_its_place(rt: HostRuntime) -> Result<(), Fail> {
    expect(&rt, b"", b"", 0)?;
    expect(&rt, b"\x00\x00\x00", b"", 6)?;
    expect(&rt, b"\x01", b"", 5)?;
    expect(&rt, b"\x00\x00\xa0\x00\x01", b"", 5)?;
    expect(&rt, b"\x00\x00\xa0\x00\x00", b"", 6)?;
    expect(&rt, b"\x00\x00\x00\x00\x03\x0a\x01\xff", b"", 5)?;
    expect(&rt, b"\x00\x00\x00\x00\x02\x2a\x00", b"", 5)
}

#[test]
fn a_fault_has_its_status(rt: HostRuntime) -> Result<(), Fail> {
    // Byte by byte the source is read once for each byte, and once more at the end.
    for n in 0..FIRST.len() + 1 {
        let (status, _sink) = answer(&rt, FIRST, 1, n, MANY)?;
        assert_eq!(rt; status, 3);
    }
    for n in 0..9 {
        let (status, sink) = answer(&rt, FIRST, 1, MANY, n)?;
        assert_eq!(rt; status, 3);
        assert_eq!(rt; sink.inner.taken().len(), n);
    }
    Ok(())
}

#[test]
fn other_words_do_nothing(rt: HostRuntime) -> Result<(), Fail> {
    let mut source = MemSource::new(rt.alloc(), FIRST.to_vec(rt.alloc())?, Vec::new(rt.alloc()));
    let mut sink = MemSink::new(rt.alloc(), Vec::new(rt.alloc()));
    for line in [["pipe", "--table"], ["drill", "02"], ["drill", "0"]] {
        let mut words = Vec::new(rt.alloc());
        for word in line {
            words.push(String::from_str(rt.alloc(), word)?)?;
        }
        let status = run_over(&rt, words.as_slice(), &mut source, &mut sink);
        assert_eq!(rt; status, 2);
    }
    assert_eq!(rt; run_over(&rt, &[], &mut source, &mut sink), 2);
    assert_eq!(rt; sink.taken().len(), 0);
    Ok(())
}

#[test]
fn limits_have_their_figures(rt: HostRuntime) {
    assert_eq!(rt; MAX_WEIGHT, 268_435_456);
    assert_eq!(rt; ROW_OVERHEAD, 32);
    assert_eq!(rt; MAX_ENTRIES, 4_194_304);
}
