//! The connections of a door in memory, and the report on the tables.

ghost use Rattle.std.specs.Prelude.{◌≡◌, true, IfOk, IsTrue};
ghost use Rattle.std.specs.List.{list_all};
ghost use Rattle.doors.specs.Memory.{is_new};

use crate::pipe_tests::{ACKNOWLEDGED, PREFACE, SERVER_SETTINGS, SETTINGS_AND_PING, SPEC};
use doors::MemDoor;
use links::{Gate, Hold, MemClock, MemLink, OpenGate, ScriptGate};
use outside::{MemSink, MemSource};
use program::run;
use std::alloc::Global;
use std::process::Abort;
use std::sync::Wait;
use std::test::Fail;
use std::thread::Threads;

const REPORT: &[u8] = b"projects/p/datasets/d/tables/t entries 0 visible 0\n";

const REPORT_OF_ONE: &[u8] = b"projects/p/datasets/d/tables/t entries 1 visible 1\n";

/// What is reported of a row and a session.
const REPORT_OF_A_READER: &[u8] = b"projects/p/datasets/d/tables/t entries 2 visible 1\n";

/// A call of AppendRows, a row with id 1 to the table's own stream, but for the number of its stream: the head of its
/// HEADERS frame, the block and the head of its DATA frame, and the message.
const APPEND_HEAD: &[u8] = b"\x00\x00i\x01\x04";

const APPEND_BLOCK: &[u8] =
    b"\x83\x86\x04:/google.cloud.bigquery.storage.v1.BigQueryWrite/AppendRows\x01\x09localhost\x0f\x10\x10application/grpc\x00\x02te\x08trailers\x00\x00Q\x00\x01";

const APPEND_MESSAGE: &[u8] =
    b"\x00\x00\x00\x00L\x0a/projects/p/datasets/d/tables/t/streams/_default\x22\x19\x0a\x11\x0a\x0f\x0a\x01R\x12\x0a\x0a\x02id\x18\x01 \x01(\x03\x12\x04\x0a\x02\x08\x01";

/// A call of GetWriteStream on stream 1.
const GET: &[u8] =
    b"\x00\x00m\x01\x04\x00\x00\x00\x01\x83\x86\x04>/google.cloud.bigquery.storage.v1.BigQueryWrite/GetWriteStream\x01\x09localhost\x0f\x10\x10application/grpc\x00\x02te\x08trailers\x00\x006\x00\x01\x00\x00\x00\x01\x00\x00\x00\x001\x0a/projects/p/datasets/d/tables/t/streams/_default";

/// A call of CreateReadSession on stream 1, of all rows and for one stream.
const BEGIN: &[u8] =
    b"\x00\x00o\x01\x04\x00\x00\x00\x01\x83\x86\x04@/google.cloud.bigquery.storage.v1.BigQueryRead/CreateReadSession\x01\x09localhost\x0f\x10\x10application/grpc\x00\x02te\x08trailers\x00\x007\x00\x01\x00\x00\x00\x01\x00\x00\x00\x002\x0a\x0aprojects/p\x12\x22\x18\x012\x1eprojects/p/datasets/d/tables/t\x18\x01";

/// A call of ReadRows on stream 3, of the first session's stream.
const READ: &[u8] =
    b"\x00\x00f\x01\x04\x00\x00\x00\x03\x83\x86\x047/google.cloud.bigquery.storage.v1.BigQueryRead/ReadRows\x01\x09localhost\x0f\x10\x10application/grpc\x00\x02te\x08trailers\x00\x009\x00\x01\x00\x00\x00\x03\x00\x00\x00\x004\x0a2projects/p/locations/local/sessions/t0-1/streams/0";

/// The fields of a ReadRowsResponse with the row of [`appends`]: its data, and that it is one row.
const ROW: &[u8] = b"\x1a\x04\x0a\x02\x02\x00\x30\x01";

/// So many of these calls of AppendRows, on streams 1, 3 and so on.
fn appends(alloc: Global, count: u32) -> Result<Vec<u8>, Fail> {
    let mut bytes = Vec::new(alloc);
    let mut stream = 1u32;
    for _ in 0..count {
        let number = stream.to_be_bytes();
        bytes.extend_from_slice(APPEND_HEAD)?;
        bytes.extend_from_slice(&number)?;
        bytes.extend_from_slice(APPEND_BLOCK)?;
        bytes.extend_from_slice(&number)?;
        bytes.extend_from_slice(APPEND_MESSAGE)?;
        stream = stream.saturating_add(2);
    }
    Ok(bytes)
}

/// A link over which a client sends SETTINGS and PING, and then this.
fn client(alloc: Global, calls: &[u8]) -> Result<MemLink, Fail>
    ensures { IfOk result (λ link. is_new link ≡ true) }
{
    let mut bytes = Vec::new(alloc);
    bytes.extend_from_slice(PREFACE)?;
    bytes.extend_from_slice(SETTINGS_AND_PING)?;
    bytes.extend_from_slice(calls)?;
    Ok(MemLink::new(alloc, bytes, Vec::new(alloc), Vec::new(alloc)))
}

/// The status of `serve` over a door with these links, the door behind it, and what was written.
pub(crate) fn answer<R: Threads + Wait + Sync + AllocGlobal, G: Gate + Sync>(
    rt: &R,
    connections: &str,
    links: Vec<MemLink>,
    fail_at: Option<u32>,
    gate: &G,
) -> Result<(u8, MemDoor, MemSink), Fail>
    requires { IsTrue (list_all is_new links.items) }
{
    let alloc = rt.alloc();
    let words = vec![in alloc;
        String::from_str(alloc, "serve")?,
        String::from_str(alloc, "--listen=127.0.0.1:0")?,
        String::from_str(alloc, "--workers=8")?,
        String::from_str(alloc, "--connections")?,
        String::from_str(alloc, connections)?,
        String::from_str(alloc, "--table")?,
        String::from_str(alloc, SPEC)?,
    ]?;
    let mut door = MemDoor::new(alloc, links, fail_at);
    let mut pipe = MemLink::new(alloc, Vec::new(alloc), Vec::new(alloc), Vec::new(alloc));
    let mut clock = MemClock::new(Vec::new(alloc));
    let mut source = MemSource::new(alloc, Vec::new(alloc), Vec::new(alloc));
    let mut sink = MemSink::new(alloc, Vec::new(alloc));
    let status = run(
        rt,
        alloc,
        words.as_slice(),
        &mut door,
        &mut pipe,
        &mut clock,
        gate,
        &mut source,
        &mut sink,
    );
    Ok((status, door, sink))
}

/// So many links were handed back, each with the answers to what [`client`] sends, and this was written.
fn expect<R: Abort + Threads + Wait + Sync + AllocGlobal>(
    rt: &R,
    connections: &str,
    fail_at: Option<u32>,
    handed: usize,
    status: u8,
    output: &[u8],
) -> Result<(), Fail> {
    let alloc = rt.alloc();
    let links = vec![in alloc; client(alloc, &[])?, client(alloc, &[])?]?;
    let (found, door, sink) = answer(rt, connections, links, fail_at, &OpenGate)?;
    assert_eq!(rt; found, status);
    assert_eq!(rt; sink.taken(), output);
    assert_eq!(rt; door.handed().len(), handed);
    let mut wanted = Vec::new(alloc);
    wanted.extend_from_slice(SERVER_SETTINGS)?;
    wanted.extend_from_slice(ACKNOWLEDGED)?;
    for link in door.handed() {
        assert_eq!(rt; link.written(), wanted.as_slice());
    }
    Ok(())
}

#[test]
fn each_link_is_served_and_handed_back(rt: HostRuntime) -> Result<(), Fail> {
    expect(&rt, "2", None, 2, 0, REPORT)?;
    expect(&rt, "1", None, 1, 0, REPORT)?;
    expect(&rt, "3", None, 2, 0, REPORT)
}

#[test]
fn a_fault_of_the_door_leaves_no_report(rt: HostRuntime) -> Result<(), Fail> {
    expect(&rt, "2", Some(1), 0, 3, b"")?;
    expect(&rt, "2", Some(3), 1, 3, b"")
}

/// The request of the connection waits until that of the other is answered.
fn hold(connection: u32, request: u32, until_connection: u32, until_request: u32) -> Hold {
    Hold {
        connection,
        request,
        until_connection,
        until_request,
    }
}

/// One connection appends and the other asks for the stream. Request 1 of `held` waits until that of `first` is answered.
fn expect_at_once<R: Abort + Threads + Wait + Sync + AllocGlobal>(
    rt: &R,
    held: u32,
    first: u32,
) -> Result<(), Fail> {
    let alloc = rt.alloc();
    let holds = vec![in alloc; hold(held, 1, first, 1)]?;
    let gate = ScriptGate::new(alloc, holds, 1_000_000_000)?;
    let links = vec![in alloc;
        client(alloc, appends(alloc, 1)?.as_slice())?,
        client(alloc, GET)?,
    ]?;
    let (status, door, sink) = answer(rt, "2", links, None, &gate)?;
    assert_eq!(rt; status, 0);
    assert_eq!(rt; sink.taken(), REPORT_OF_ONE);
    assert_eq!(rt; door.handed().len(), 2);
    assert_eq!(rt; gate.gave_up(), false);
    Ok(())
}

/// How often this stands in those bytes.
pub(crate) fn times(bytes: &[u8], part: &[u8]) -> u32 {
    let mut found = 0u32;
    for start in 0..bytes.len() {
        let behind = &bytes[start..];
        if behind.len() >= part.len() && &behind[..part.len()] == part {
            found = found.saturating_add(1);
        }
    }
    found
}

/// How often this stands in what was written to all links that were handed back.
fn times_in_all(door: &MemDoor, part: &[u8]) -> u32 {
    let mut found = 0u32;
    for link in door.handed() {
        found = found.saturating_add(times(link.written(), part));
    }
    found
}

/// One connection appends while the other reads, under these holds. The reader gets the row, or no row.
fn expect_read<R: Abort + Threads + Wait + Sync + AllocGlobal>(
    rt: &R,
    holds: Vec<Hold>,
    row: bool,
) -> Result<(), Fail> {
    let alloc = rt.alloc();
    let gate = ScriptGate::new(alloc, holds, 1_000_000_000)?;
    let mut reading = BEGIN.to_vec(alloc)?;
    reading.extend_from_slice(READ)?;
    let links = vec![in alloc;
        client(alloc, appends(alloc, 1)?.as_slice())?,
        client(alloc, reading.as_slice())?,
    ]?;
    let (status, door, sink) = answer(rt, "2", links, None, &gate)?;
    assert_eq!(rt; status, 0);
    assert_eq!(rt; gate.gave_up(), false);
    assert_eq!(rt; sink.taken(), REPORT_OF_A_READER);
    assert_eq!(rt; times_in_all(&door, ROW), if row { 1 } else { 0 });
    Ok(())
}

#[test]
fn a_reader_and_a_writer_are_served_at_once(rt: HostRuntime) -> Result<(), Fail> {
    let alloc = rt.alloc();
    // The session begins behind the append.
    expect_read(&rt, vec![in alloc; hold(1, 1, 0, 1)]?, true)?;
    // The append comes between the session and its ReadRows, which gives what the session saw.
    expect_read(
        &rt,
        vec![in alloc; hold(0, 1, 1, 1), hold(1, 2, 0, 1)]?,
        false,
    )
}

#[test]
fn two_connections_are_served_at_once(rt: HostRuntime) -> Result<(), Fail> {
    expect_at_once(&rt, 1, 0)?;
    expect_at_once(&rt, 0, 1)
}
