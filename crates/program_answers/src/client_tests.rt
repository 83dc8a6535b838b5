//! A client that appends rows, over a link that fails, and with its bytes cut.

ghost use Rattle.std.specs.Prelude.{IsTrue};
ghost use Rattle.links.specs.Script.{is_link_script};

use crate::pipe_tests::answer;
use client_calls::{ClientCall, client_bytes, may_send};
use grpc_meta::Method;
use links::MemLink;
use outside::{Blob, Piece};
use std::process::Abort;
use std::sync::Wait;
use std::test::Fail;
use std::thread::Threads;

/// The default stream, a descriptor with the field `id`, number 1, INT64, and the row with id 1.
pub(crate) const FIRST: &[u8] =
    b"\x0a\x2fprojects/p/datasets/d/tables/t/streams/_default\x22\x19\x0a\x11\x0a\x0f\x0a\x01R\x12\x0a\x0a\x02id\x18\x01\x20\x02\x28\x03\x12\x04\x0a\x02\x08\x01";

/// The row with id 2.
pub(crate) const SECOND: &[u8] = b"\x22\x06\x12\x04\x0a\x02\x08\x02";

/// A row without a field.
const THIRD: &[u8] = b"\x22\x04\x12\x02\x0a\x00";

/// Where the preface of [`client`] ends, and each of its frames: SETTINGS, HEADERS, and four DATA.
const ENDS: [usize; 7] = [24, 33, 136, 226, 248, 268, 277];

/// What a client writes that appends three messages and ends the call.
fn client<R: Abort + AllocGlobal>(rt: &R) -> Result<Vec<u8>, Fail> {
    let alloc = rt.alloc();
    let messages = vec![in alloc;
        Blob::of(alloc, FIRST)?,
        Blob::of(alloc, SECOND)?,
        Blob::of(alloc, THIRD)?,
    ]?;
    let calls = vec![in alloc;
        ClientCall {
            stream: 1,
            method: Method::AppendRows,
            messages,
            end: true,
        },
    ]?;
    let is_sendable = may_send(calls.as_slice());
    assert!(rt; is_sendable);
    Ok(client_bytes(alloc, calls.as_slice())?.into_vec())
}

/// What was written is a front of what a good run writes.
fn expect_front<R: Abort>(rt: &R, good: &MemLink, found: &MemLink) {
    let is_front = good.written().starts_with(found.written());
    assert!(rt; is_front);
}

#[test]
fn each_cut_has_its_status(rt: HostRuntime) -> Result<(), Fail> {
    let alloc = rt.alloc();
    let bytes = client(&rt)?;
    let (status, good) = answer(&rt, &[bytes.as_slice()], Vec::new(alloc), Vec::new(alloc))?;
    assert_eq!(rt; status, 0);
    for len in 1..=bytes.len() {
        let (status, link) = answer(&rt, &[&bytes[..len]], Vec::new(alloc), Vec::new(alloc))?;
        let wanted = if ENDS.contains(&len) { 0 } else { 6 };
        assert_eq!(rt; status, wanted);
        expect_front(&rt, &good, &link);
    }
    Ok(())
}

/// A connection over a link with these scripts has this status, and writes a front of what a good run writes, or all of it
/// where the status is 0.
fn expect<R: Abort + Threads + Wait + Sync + AllocGlobal>(
    rt: &R,
    reads: Vec<Piece>,
    writes: Vec<Piece>,
    wanted: u8,
) -> Result<(), Fail>
    requires reads { IsTrue (is_link_script reads.items) }
    requires writes { IsTrue (is_link_script writes.items) }
{
    let alloc = rt.alloc();
    let bytes = client(rt)?;
    let (_, good) = answer(rt, &[bytes.as_slice()], Vec::new(alloc), Vec::new(alloc))?;
    let (status, link) = answer(rt, &[bytes.as_slice()], reads, writes)?;
    assert_eq!(rt; status, wanted);
    expect_front(rt, &good, &link);
    let is_whole = link.written().len() == good.written().len();
    assert_eq!(rt; is_whole, wanted == 0);
    Ok(())
}

#[test]
fn each_fault_of_the_link_has_its_status(rt: HostRuntime) -> Result<(), Fail> {
    let alloc = rt.alloc();
    let all = Piece::UpTo(65_536);
    let fail = Piece::Fail;
    expect(&rt, vec![in alloc; fail]?, Vec::new(alloc), 3)?;
    expect(
        &rt,
        vec![in alloc; all, all, all, fail]?,
        Vec::new(alloc),
        3,
    )?;
    expect(&rt, Vec::new(alloc), vec![in alloc; fail]?, 3)?;
    expect(&rt, Vec::new(alloc), vec![in alloc; all, all, fail]?, 3)
}

#[test]
fn waits_and_small_pieces_change_nothing(rt: HostRuntime) -> Result<(), Fail> {
    let alloc = rt.alloc();
    let wait = Piece::NotReady;
    let one = Piece::UpTo(1);
    let few = Piece::UpTo(20);
    expect(
        &rt,
        vec![in alloc; wait, one, wait, few, wait, one, few, wait]?,
        Vec::new(alloc),
        0,
    )?;
    expect(
        &rt,
        Vec::new(alloc),
        vec![in alloc; wait, one, wait, few, wait, one, few, wait]?,
        0,
    )
}
