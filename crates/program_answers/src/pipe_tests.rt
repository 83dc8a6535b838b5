//! Connections over a link in memory, byte for byte.

ghost use Rattle.std.specs.Prelude.{IsTrue};
ghost use Rattle.links.specs.Script.{is_link_script};

use doors::MemDoor;
use links::{MemClock, MemLink, OpenGate};
use outside::{MemSink, MemSource, Piece};
use program::run;
use std::process::Abort;
use std::sync::Wait;
use std::test::Fail;
use std::thread::Threads;

pub(crate) const SPEC: &str = "projects/p/datasets/d/tables/t=id:INT64:REQUIRED,tag:STRING";

pub(crate) const PREFACE: &[u8] = b"PRI * HTTP/2.0\r\n\r\nSM\r\n\r\n";

/// SETTINGS without a setting, and PING.
pub(crate) const SETTINGS_AND_PING: &[u8] =
    b"\x00\x00\x00\x04\x00\x00\x00\x00\x00\x00\x00\x08\x06\x00\x00\x00\x00\x00\x01\x02\x03\x04\x05\x06\x07\x08";

/// The server's SETTINGS: 100 streams at once, and header lists of 16,384 bytes.
pub(crate) const SERVER_SETTINGS: &[u8] =
    b"\x00\x00\x0c\x04\x00\x00\x00\x00\x00\x00\x03\x00\x00\x00\x64\x00\x06\x00\x00\x40\x00";

/// What answers [`SETTINGS_AND_PING`].
pub(crate) const ACKNOWLEDGED: &[u8] =
    b"\x00\x00\x00\x04\x01\x00\x00\x00\x00\x00\x00\x08\x06\x01\x00\x00\x00\x00\x01\x02\x03\x04\x05\x06\x07\x08";

/// GOAWAY behind no stream, with PROTOCOL_ERROR.
const GOAWAY: &[u8] = b"\x00\x00\x08\x07\x00\x00\x00\x00\x00\x00\x00\x00\x00\x00\x00\x00\x01";

/// The status of `pipe` over these bytes, and the link behind it.
pub(crate) fn answer<R: Threads + Wait + Sync + AllocGlobal>(
    rt: &R,
    input: &[&[u8]],
    reads: Vec<Piece>,
    writes: Vec<Piece>,
) -> Result<(u8, MemLink), Fail>
    requires reads { IsTrue (is_link_script reads.items) }
    requires writes { IsTrue (is_link_script writes.items) }
{
    let alloc = rt.alloc();
    let words = vec![in alloc;
        String::from_str(alloc, "pipe")?,
        String::from_str(alloc, "--table")?,
        String::from_str(alloc, SPEC)?,
    ]?;
    let mut bytes = Vec::new(alloc);
    for part in input {
        bytes.extend_from_slice(part)?;
    }
    let mut pipe = MemLink::new(alloc, bytes, reads, writes);
    let mut door = MemDoor::new(alloc, Vec::new(alloc), None);
    let mut clock = MemClock::new(Vec::new(alloc));
    let mut source = MemSource::new(alloc, Vec::new(alloc), Vec::new(alloc));
    let mut sink = MemSink::new(alloc, Vec::new(alloc));
    let status = run(
        rt,
        alloc,
        words.as_slice(),
        &mut door,
        &mut pipe,
        &mut clock,
        &OpenGate,
        &mut source,
        &mut sink,
    );
    Ok((status, pipe))
}

/// The bytes are answered by these, with this status.
fn expect<R: Abort + Threads + Wait + Sync + AllocGlobal>(
    rt: &R,
    input: &[&[u8]],
    output: &[&[u8]],
    status: u8,
) -> Result<(), Fail> {
    let mut wanted = Vec::new(rt.alloc());
    for part in output {
        wanted.extend_from_slice(part)?;
    }
    let (found, pipe) = answer(rt, input, Vec::new(rt.alloc()), Vec::new(rt.alloc()))?;
    assert_eq!(rt; found, status);
    assert_eq!(rt; pipe.written(), wanted.as_slice());
    Ok(())
}

#[test]
fn a_connection_ends_in_its_place(rt: HostRuntime) -> Result<(), Fail> {
    expect(&rt, &[], &[SERVER_SETTINGS], 0)?;
    expect(
        &rt,
        &[PREFACE, SETTINGS_AND_PING],
        &[SERVER_SETTINGS, ACKNOWLEDGED],
        0,
    )?;
    expect(&rt, &[b"PRI * HTTP"], &[SERVER_SETTINGS], 6)?;
    expect(&rt, &[b"PRI \x00 HTTP/2.0"], &[SERVER_SETTINGS, GOAWAY], 5)
}

#[test]
fn a_fault_of_the_link_has_its_status(rt: HostRuntime) -> Result<(), Fail> {
    let writes = vec![in rt.alloc(); Piece::UpTo(1_000), Piece::Fail]?;
    let (status, pipe) = answer(
        &rt,
        &[PREFACE, SETTINGS_AND_PING],
        Vec::new(rt.alloc()),
        writes,
    )?;
    assert_eq!(rt; status, 3);
    assert_eq!(rt; pipe.written(), SERVER_SETTINGS);
    Ok(())
}
