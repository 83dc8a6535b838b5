//! Bodies over a table, byte for byte.

use crate::body_tests::run_over;
use outside::{MemSink, MemSource};
use std::process::Abort;
use std::sync::Wait;
use std::test::Fail;
use std::thread::Threads;

const SPEC: &str = "projects/p/datasets/d/tables/t=id:INT64:REQUIRED,tag:STRING";

/// A descriptor with the field `id`, number 1, INT64, and the row with id 1.
const WITH_ID: &[u8] =
    b"\x00\x00\x00\x00\x1b\x22\x19\x0a\x11\x0a\x0f\x0a\x01R\x12\x0a\x0a\x02id\x18\x01\x20\x02\x28\x03\x12\x04\x0a\x02\x08\x01";

/// A row without a field, and no writer schema.
const EMPTY_ROW: &[u8] = b"\x00\x00\x00\x00\x06\x22\x04\x12\x02\x0a\x00";

/// The descriptor's field is named `idx`.
const WITH_IDX: &[u8] =
    b"\x00\x00\x00\x00\x1c\x22\x1a\x0a\x12\x0a\x10\x0a\x01R\x12\x0b\x0a\x03idx\x18\x01\x20\x02\x28\x03\x12\x04\x0a\x02\x08\x01";

/// The descriptor's field is a STRING.
const WITH_TEXT: &[u8] =
    b"\x00\x00\x00\x00\x1b\x22\x19\x0a\x11\x0a\x0f\x0a\x01R\x12\x0a\x0a\x02id\x18\x01\x20\x02\x28\x09\x12\x04\x0a\x02\x08\x01";

const ACCEPTED: &[u8] = b"\x00\x00\x00\x00\x04\x0a\x02\x0a\x00";

const ROWS_REFUSED: &[u8] =
    b"\x00\x00\x00\x00\x37\x12\x10\x08\x03\x12\x0crows refused\x22\x23\x10\x01\x1a\x1fno value in required column: id";

/// The status of `body --table` with this SPEC over an input, and what it writes.
fn answer<R: Threads + Wait + Sync + AllocGlobal>(
    rt: &R,
    spec: &str,
    input: Vec<u8>,
) -> Result<(u8, MemSink), Fail> {
    let alloc = rt.alloc();
    let words = vec![in alloc;
        String::from_str(alloc, "body")?,
        String::from_str(alloc, "--table")?,
        String::from_str(alloc, spec)?,
    ]?;
    let mut source = MemSource::new(alloc, input, Vec::new(alloc));
    let mut sink = MemSink::new(alloc, Vec::new(alloc));
    let status = run_over(rt, words.as_slice(), &mut source, &mut sink);
    Ok((status, sink))
}

/// The messages are answered by these bytes, with status 0.
fn expect<R: Abort + Threads + Wait + Sync + AllocGlobal>(
    rt: &R,
    messages: &[&[u8]],
    output: &[&[u8]],
) -> Result<(), Fail> {
    let mut input = Vec::new(rt.alloc());
    for message in messages {
        input.extend_from_slice(message)?;
    }
    let mut wanted = Vec::new(rt.alloc());
    for reply in output {
        wanted.extend_from_slice(reply)?;
    }
    let (status, sink) = answer(rt, SPEC, input)?;
    assert_eq!(rt; status, 0);
    assert_eq!(rt; sink.taken(), wanted.as_slice());
    Ok(())
}

#[test]
fn rows_are_decoded_by_their_descriptor(rt: HostRuntime) -> Result<(), Fail> {
    expect(&rt, &[WITH_ID, EMPTY_ROW], &[ACCEPTED, ROWS_REFUSED])?;
    expect(
        &rt,
        &[WITH_IDX],
        &[b"\x00\x00\x00\x00\x1d\x12\x1b\x08\x03\x12\x17field not in table: idx"],
    )?;
    expect(
        &rt,
        &[WITH_TEXT],
        &[b"\x00\x00\x00\x00\x21\x12\x1f\x08\x03\x12\x1bfield type does not fit: id"],
    )?;
    expect(
        &rt,
        &[EMPTY_ROW],
        &[b"\x00\x00\x00\x00\x16\x12\x14\x08\x03\x12\x10no writer schema"],
    )
}

#[test]
fn columns_differ_without_case(rt: HostRuntime) -> Result<(), Fail> {
    let spec = "projects/p/datasets/d/tables/t=a:INT64,A:BOOL";
    let (status, sink) = answer(&rt, spec, Vec::new(rt.alloc()))?;
    assert_eq!(rt; status, 2);
    assert_eq!(rt; sink.taken().len(), 0);
    Ok(())
}
