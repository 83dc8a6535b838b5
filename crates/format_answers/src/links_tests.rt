//! A link, a clock and a gate, by their scripts.

ghost use Rattle.links.specs.Script.{is_link_script};
ghost use Rattle.std.specs.Prelude.{◌≡◌, ◌<◌, false, length, IfOk, IsTrue};

use links::{
    Clock, Gate, LATEST_READING, Link, LinkFailed, LinkRead, LinkWrite, MemClock, MemLink, Moment,
    OpenGate, StdLink, SystemClock, Written, read_at_most, write_all,
};
use outside::{Memory, Piece};
use std::alloc::Global;
use std::test::Fail;

/// A link in memory that gives the input, by the scripts of its reads and of its writes.
fn memory_link(
    alloc: Global,
    input: &[u8],
    reads: &[Piece],
    writes: &[Piece],
) -> Result<MemLink, Memory>
    requires reads { IsTrue (is_link_script reads.now) }
    requires writes { IsTrue (is_link_script writes.now) }
    ensures { IfOk result (λ link. link.closed ≡ false) }
{
    let reads = reads.to_vec(alloc)?;
    let writes = writes.to_vec(alloc)?;
    Ok(MemLink::new(alloc, input.to_vec(alloc)?, reads, writes))
}

/// What a read answers.
fn read<L: Link>(link: &mut L, into: &mut [u8]) -> LinkRead
    requires some { 0 < length into.old }
    requires open { L.closed link.old ≡ false }
    ensures { L.closed link.new ≡ false }
{
    link.read(into)
}

/// What a write answers.
fn write<L: Link>(link: &mut L, bytes: &[u8]) -> LinkWrite
    requires some { 0 < length bytes.now }
    requires open { L.closed link.old ≡ false }
    ensures { L.closed link.new ≡ false }
{
    link.write(bytes)
}

/// What a wait answers.
fn wait<L: Link>(link: &mut L, want_write: bool) -> Result<(), LinkFailed>
    requires { L.closed link.old ≡ false }
    ensures { L.closed link.new ≡ false }
{
    link.wait(want_write)
}

#[test]
fn a_link_follows_its_script_of_reads(rt: HostRuntime) -> Result<(), Fail> {
    let reads = [Piece::UpTo(2), Piece::NotReady, Piece::Fail];
    let mut link = memory_link(rt.alloc(), b"abcdef", &reads, &[])?;
    let mut into = [0u8; 3];
    assert_eq!(rt; read(&mut link, &mut into), LinkRead::Got(2));
    assert_eq!(rt; &into, b"ab\0");
    assert_eq!(rt; read(&mut link, &mut into), LinkRead::NotReady);
    assert_eq!(rt; wait(&mut link, false), Ok(()));
    assert_eq!(rt; read(&mut link, &mut into), LinkRead::Failed);
    assert_eq!(rt; read(&mut link, &mut into), LinkRead::Got(3));
    assert_eq!(rt; &into, b"cde");
    assert_eq!(rt; read(&mut link, &mut into), LinkRead::Got(1));
    assert_eq!(rt; read(&mut link, &mut into), LinkRead::End);
    assert_eq!(rt; read(&mut link, &mut into), LinkRead::End);
    link.close();
    Ok(())
}

#[test]
fn behind_the_end_no_script_is_asked(rt: HostRuntime) -> Result<(), Fail> {
    let reads = [Piece::UpTo(1), Piece::Fail, Piece::NotReady];
    let mut link = memory_link(rt.alloc(), b"", &reads, &[])?;
    let mut into = [0u8; 1];
    assert_eq!(rt; read(&mut link, &mut into), LinkRead::End);
    assert_eq!(rt; read(&mut link, &mut into), LinkRead::End);
    assert_eq!(rt; read(&mut link, &mut into), LinkRead::End);
    Ok(())
}

#[test]
fn a_link_follows_its_script_of_writes(rt: HostRuntime) -> Result<(), Fail> {
    let writes = [Piece::UpTo(1), Piece::NotReady, Piece::Fail];
    let mut link = memory_link(rt.alloc(), b"", &[], &writes)?;
    assert_eq!(rt; write(&mut link, b"xyz"), LinkWrite::Took(1));
    assert_eq!(rt; write(&mut link, b"yz"), LinkWrite::NotReady);
    assert_eq!(rt; wait(&mut link, true), Ok(()));
    assert_eq!(rt; write(&mut link, b"yz"), LinkWrite::Failed);
    assert_eq!(rt; write(&mut link, b"yz"), LinkWrite::Took(2));
    assert_eq!(rt; link.written(), b"xyz".as_slice());
    Ok(())
}

/// How far a buffer is written.
fn write_buffer(link: &mut MemLink, bytes: &[u8]) -> Written
    requires some { 0 < length bytes.now }
    requires open { link.old.closed ≡ false }
    ensures { link.new.closed ≡ false }
{
    write_all(link, bytes)
}

#[test]
fn a_buffer_is_written_whole_or_as_far_as_it_goes(rt: HostRuntime) -> Result<(), Fail> {
    let writes = [
        Piece::UpTo(2),
        Piece::UpTo(1),
        Piece::NotReady,
        Piece::UpTo(4),
        Piece::Fail,
    ];
    let mut link = memory_link(rt.alloc(), b"", &[], &writes)?;
    assert_eq!(rt; write_buffer(&mut link, b"abcdefgh"), Written::NotReady(3));
    assert_eq!(rt; write_buffer(&mut link, b"defgh"), Written::Failed(4));
    assert_eq!(rt; write_buffer(&mut link, b"h"), Written::Whole);
    assert_eq!(rt; link.written(), b"abcdefgh".as_slice());
    Ok(())
}

#[test]
fn no_more_is_read_than_was_asked(rt: HostRuntime) -> Result<(), Fail> {
    let mut link = memory_link(rt.alloc(), b"abcdef", &[], &[])?;
    let mut buffer = [0u8; 4];
    assert_eq!(rt; read_at_most(&mut link, &mut buffer, 3), LinkRead::Got(3));
    assert_eq!(rt; &buffer, b"abc\0");
    assert_eq!(rt; read_at_most(&mut link, &mut buffer, 9), LinkRead::Got(3));
    assert_eq!(rt; &buffer, b"def\0");
    Ok(())
}

#[test]
fn a_clock_gives_its_times(rt: HostRuntime) -> Result<(), Fail> {
    let mut clock = MemClock::new(vec![in rt.alloc(); 5, -1, i64::MAX]?);
    for want in [5, 0, LATEST_READING, LATEST_READING] {
        assert_eq!(rt; clock.now(), want);
    }
    assert_eq!(rt; MemClock::new(Vec::new(rt.alloc())).now(), 0);
    Ok(())
}

#[test]
fn the_machine_has_a_clock(rt: HostRuntime) {
    let mut clock = SystemClock::new(&rt);
    // 2024-01-01
    assert!(rt; clock.now() > 1_704_067_200_000_000);
    assert!(rt; clock.now() < LATEST_READING);
}

#[test]
fn a_link_over_std_gives_and_takes(rt: HostRuntime) -> Result<(), Fail> {
    let out: Vec<u8> = Vec::new(rt.alloc());
    let mut link = StdLink::new(rt.alloc(), b"abc".as_slice(), out)?;
    let mut into = [0u8; 2];
    assert_eq!(rt; write(&mut link, b"xy"), LinkWrite::Took(2));
    assert_eq!(rt; read(&mut link, &mut into), LinkRead::NotReady);
    assert_eq!(rt; wait(&mut link, false), Ok(()));
    assert_eq!(rt; read(&mut link, &mut into), LinkRead::Got(2));
    assert_eq!(rt; &into, b"ab");
    assert_eq!(rt; read(&mut link, &mut into), LinkRead::Got(1));
    assert_eq!(rt; read(&mut link, &mut into), LinkRead::NotReady);
    assert_eq!(rt; wait(&mut link, false), Ok(()));
    assert_eq!(rt; read(&mut link, &mut into), LinkRead::End);
    assert_eq!(rt; read(&mut link, &mut into), LinkRead::End);
    assert_eq!(rt; write(&mut link, b"z"), LinkWrite::Took(1));
    assert_eq!(rt; wait(&mut link, true), Ok(()));
    link.close();
    Ok(())
}

#[test]
fn a_writer_without_room_is_a_fault(rt: HostRuntime) -> Result<(), Fail> {
    let mut room = [0u8; 2];
    let mut link = StdLink::new(rt.alloc(), b"abc".as_slice(), &mut room[..])?;
    assert_eq!(rt; write(&mut link, b"xyz"), LinkWrite::Took(3));
    assert_eq!(rt; wait(&mut link, false), Err(LinkFailed));
    assert_eq!(rt; read(&mut link, &mut [0u8; 1]), LinkRead::Failed);
    Ok(())
}

#[test]
fn an_open_gate_holds_nobody(rt: HostRuntime) {
    OpenGate.reach(0, 1, Moment::Before);
    OpenGate.reach(0, 1, Moment::After);
    assert_eq!(rt; OpenGate, OpenGate);
}
