//! Many clients at once.

ghost use Rattle.std.specs.Prelude.{◌≡◌, true, IfOk};
ghost use Rattle.std.specs.List.{list_all};
ghost use Rattle.doors.specs.Memory.{is_new};

use crate::client_tests::{FIRST, SECOND};
use crate::serve_tests::{answer, times};
use client_calls::{ClientCall, client_bytes, may_send};
use grpc_meta::Method;
use links::{MemLink, OpenGate};
use outside::Blob;
use std::alloc::{AllocError, Global};
use std::process::Abort;
use std::test::Fail;

/// How many clients there are.
const CLIENTS: u32 = 32;

/// How many messages each sends behind its first, with a row each.
const MORE: u32 = 999;

const REPORT: &[u8] = b"projects/p/datasets/d/tables/t entries 32000 visible 32000\n";

/// The reply to [`FIRST`]: its rows were appended, and to which stream.
const FIRST_REPLY: &[u8] =
    b"\x00\x00\x00\x00\x33\x0a\x00\x2a\x2fprojects/p/datasets/d/tables/t/streams/_default";

/// The reply to [`SECOND`]: its rows were appended.
const REPLY: &[u8] = b"\x00\x00\x00\x00\x02\x0a\x00";

/// What a client writes that appends 1,000 rows to the table's own stream, one in a message, and ends its call.
fn appending<R: Abort + AllocGlobal>(rt: &R) -> Result<Vec<u8>, Fail> {
    let alloc = rt.alloc();
    let mut messages = vec![in alloc; Blob::of(alloc, FIRST)?]?;
    for _ in 0..MORE {
        messages.push(Blob::of(alloc, SECOND)?)?;
    }
    let calls = vec![in alloc;
        ClientCall {
            stream: 1,
            method: Method::AppendRows,
            messages,
            end: true,
        },
    ]?;
    let is_sendable = may_send(calls.as_slice());
    assert!(rt; is_sendable);
    Ok(client_bytes(alloc, calls.as_slice())?.into_vec())
}

/// The links of all clients, each of which sends these bytes.
fn crowd(alloc: Global, bytes: &[u8]) -> Result<Vec<MemLink>, AllocError>
    ensures { IfOk result (λ links. list_all is_new links.items ≡ true) }
{
    let mut links = Vec::new(alloc);
    for _ in 0..CLIENTS {
        let input = bytes.to_vec(alloc)?;
        links.push(MemLink::new(alloc, input, Vec::new(alloc), Vec::new(alloc)))?;
    }
    Ok(links)
}

#[test]
fn each_row_of_a_crowd_is_appended_once(rt: HostRuntime) -> Result<(), Fail> {
    let bytes = appending(&rt)?;
    let links = crowd(rt.alloc(), bytes.as_slice())?;
    let (status, door, sink) = answer(&rt, "32", links, None, &OpenGate)?;
    assert_eq!(rt; status, 0);
    assert_eq!(rt; sink.taken(), REPORT);
    assert_eq!(rt; door.handed().len(), 32);
    for link in door.handed() {
        assert_eq!(rt; times(link.written(), FIRST_REPLY), 1);
        assert_eq!(rt; times(link.written(), REPLY), MORE);
    }
    Ok(())
}
