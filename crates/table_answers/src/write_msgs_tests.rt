//! AppendRowsRequests and AppendRowsResponses as they are spelled on the wire.

use crate::written::assert_written;
use outside::{Blob, Text};
use std::alloc::Global;
use std::process::Abort;
use std::test::Fail;
use write_msgs::*;

/// The offset is an empty Int64Value; one row, `08 01`.
const EMPTY_OFFSET: [u8; 10] = [0x12, 0x00, 0x22, 0x06, 0x12, 0x04, 0x0a, 0x02, 0x08, 0x01];

/// A descriptor of one field, `id`, and the row `08 01`.
const WITH_DESCRIPTOR: [u8; 27] = [
    0x22, 0x19, 0x0a, 0x11, 0x0a, 0x0f, 0x0a, 0x01, 0x52, 0x12, 0x0a, 0x0a, 0x02, 0x69, 0x64, 0x18,
    0x01, 0x20, 0x02, 0x28, 0x03, 0x12, 0x04, 0x0a, 0x02, 0x08, 0x01,
];

#[test]
fn reads_and_writes_an_empty_offset(rt: HostRuntime) -> Result<(), Fail> {
    let request = AppendRowsRequest::decode(rt.alloc(), &EMPTY_OFFSET)?;
    assert_eq!(rt; request.offset, Some(0), "an empty Int64Value is 0");
    assert_eq!(rt; request.write_stream.text(), "");
    assert_written(&rt, request.encode(rt.alloc()), &EMPTY_OFFSET)
}

#[test]
fn reads_and_writes_a_descriptor(rt: HostRuntime) -> Result<(), Fail> {
    let request = AppendRowsRequest::decode(rt.alloc(), &WITH_DESCRIPTOR)?;
    assert_eq!(rt; request.offset, None);
    assert_written(&rt, request.encode(rt.alloc()), &WITH_DESCRIPTOR)
}

/// The descriptor in a request, and how many rows are with it.
fn descriptor_and_rows(request: AppendRowsRequest) -> Result<(Blob, usize), &'static str> {
    let proto_rows = request.proto_rows.ok_or("proto_rows")?;
    let schema = proto_rows.writer_schema.ok_or("writer_schema")?;
    let descriptor = schema.proto_descriptor.ok_or("proto_descriptor")?;
    let rows = proto_rows.rows.ok_or("rows")?.serialized_rows.into_vec();
    Ok((descriptor, rows.len()))
}

#[test]
fn reads_a_descriptor_and_a_row(rt: HostRuntime) -> Result<(), Fail> {
    let request = AppendRowsRequest::decode(rt.alloc(), &WITH_DESCRIPTOR)?;
    let (descriptor, rows) = descriptor_and_rows(request)?;
    assert_eq!(rt; descriptor.bytes(), &WITH_DESCRIPTOR[6..21]);
    assert_eq!(rt; rows, 1);
    Ok(())
}

/// A message, the fault that it is refused for, and what it shows.
type Case = (&'static [u8], Option<MsgFault>, &'static str);

/// Requests with faults, of which the first in order is the answer.
const REQUESTS: [Case; 8] = [
    (
        &[0x0a, 1, 0xff, 0x0a, 1, 0x61],
        None,
        "the last text counts",
    ),
    (
        &[0x0a, 1, 0x61, 0x0a, 1, 0xff],
        Some(MsgFault::BadUtf8 { field: 1 }),
        "no UTF-8",
    ),
    (
        &[0x0a, 1, 0xff, 0x2a, 0],
        Some(MsgFault::Unsupported { field: 5 }),
        "ARROW before the text",
    ),
    (&[0x28, 0], None, "field 5 of another wire type"),
    (&[0x12, 1, 0x08, 0x12, 1, 0x05], None, "a joined offset"),
    (
        &[0x12, 1, 0x0b, 0x12, 0, 0x2a, 0],
        Some(MsgFault::BadProto { at: 3 }),
        "the last tag of the offset",
    ),
    (
        &[0x22, 1, 0x0b, 0x12, 1, 0x0b],
        Some(MsgFault::BadProto { at: 0 }),
        "the least place",
    ),
    (
        &[0x12, 1, 0x0b, 0x0b],
        Some(MsgFault::BadProto { at: 3 }),
        "a field of its own before one within",
    ),
];

/// Why a request is refused.
fn refusal(rt: &impl Abort, alloc: Global, bytes: &[u8]) -> Option<MsgFault> {
    assert!(rt; bytes.len() < 1 << 32);
    AppendRowsRequest::decode(alloc, bytes).err()
}

#[test]
fn refuses_by_the_order_of_faults(rt: HostRuntime) {
    for (bytes, fault, message) in &REQUESTS {
        assert_eq!(rt; refusal(&rt, rt.alloc(), bytes), *fault, "{message}");
    }
}

/// The answer `w` with a status of code -1, `rows`, and one row error of code 1, `no`.
const REFUSED: [u8; 30] = [
    0x12, 0x11, 0x08, 0xff, 0xff, 0xff, 0xff, 0xff, 0xff, 0xff, 0xff, 0xff, 0x01, 0x12, 0x04, 0x72,
    0x6f, 0x77, 0x73, 0x22, 0x06, 0x10, 0x01, 0x1a, 0x02, 0x6e, 0x6f, 0x2a, 0x01, 0x77,
];

/// The response that [`REFUSED`] spells.
fn refused(alloc: Global) -> Result<AppendRowsResponse, Fail> {
    let row_error = RowError {
        index: 0,
        code: 1,
        message: Text::of(alloc, "no")?,
    };
    let status = Status {
        code: -1,
        message: Text::of(alloc, "rows")?,
    };
    Ok(AppendRowsResponse {
        append_result: None,
        error: Some(status),
        row_errors: RowErrors::from_vec(vec![in alloc; row_error]?),
        write_stream: Text::of(alloc, "w")?,
    })
}

#[test]
fn writes_an_accepted_append(rt: HostRuntime) -> Result<(), Fail> {
    let accepted = AppendRowsResponse {
        append_result: Some(AppendResult { offset: Some(0) }),
        error: None,
        row_errors: RowErrors::from_vec(Vec::new(rt.alloc())),
        write_stream: Text::of(rt.alloc(), "")?,
    };
    assert_written(&rt, accepted.encode(rt.alloc()), &[0x0a, 0x02, 0x0a, 0x00])
}

#[test]
fn writes_a_refused_append(rt: HostRuntime) -> Result<(), Fail> {
    let refused = refused(rt.alloc())?;
    assert_written(&rt, refused.encode(rt.alloc()), &REFUSED)
}

#[test]
fn reads_a_refused_append(rt: HostRuntime) -> Result<(), Fail> {
    let read = AppendRowsResponse::decode(rt.alloc(), &REFUSED)?;
    assert!(rt; read.append_result.is_none());
    assert_eq!(rt; read.write_stream.text(), "w");
    let status = read.error.ok_or("error")?;
    assert_eq!(rt; (status.code, status.message.text()), (-1, "rows"));
    Ok(())
}

#[test]
fn reads_the_rows_at_fault(rt: HostRuntime) -> Result<(), Fail> {
    let read = AppendRowsResponse::decode(rt.alloc(), &REFUSED)?;
    let error = read.row_errors.errors().first().ok_or("a row error")?;
    assert_eq!(rt; (error.index, error.code), (0, 1));
    Ok(())
}

#[test]
fn refuses_a_reply_at_its_row_error(rt: HostRuntime) {
    assert_eq!(rt;
        AppendRowsResponse::decode(rt.alloc(), &[0x22, 0, 0x22, 1, 0x0b, 0x22, 1, 0x0b]).err(),
        Some(MsgFault::BadProto { at: 2 }),
        "the tag of the second row error"
    );
}

/// Names the stream `w`, at the offset 3.
const FLUSH: [u8; 7] = [0x0a, 1, 0x77, 0x12, 2, 0x08, 3];

#[test]
fn reads_and_writes_a_flush(rt: HostRuntime) -> Result<(), Fail> {
    let flush = FlushRowsRequest::decode(rt.alloc(), &FLUSH)?;
    assert_eq!(rt; (flush.write_stream.text(), flush.offset), ("w", Some(3)));
    assert_written(&rt, flush.encode(rt.alloc()), &FLUSH)
}

/// The number 3: an offset in one response, and a count of rows in another.
const THREE: [u8; 2] = [0x08, 3];

#[test]
fn reads_and_writes_a_flushed_offset(rt: HostRuntime) -> Result<(), Fail> {
    let flushed = FlushRowsResponse::decode(rt.alloc(), &THREE)?;
    assert_eq!(rt; flushed.offset, 3);
    assert_written(&rt, flushed.encode(rt.alloc()), &THREE)
}

#[test]
fn reads_and_writes_a_count_of_rows(rt: HostRuntime) -> Result<(), Fail> {
    let finalised = FinalizeWriteStreamResponse::decode(rt.alloc(), &THREE)?;
    assert_eq!(rt; finalised.row_count, 3);
    assert_written(&rt, finalised.encode(rt.alloc()), &THREE)
}

/// Names the stream `w`, and the view 2.
const VIEW: [u8; 5] = [0x0a, 1, 0x77, 0x18, 2];

#[test]
fn reads_and_writes_a_view(rt: HostRuntime) -> Result<(), Fail> {
    let get = GetWriteStreamRequest::decode(rt.alloc(), &VIEW)?;
    assert_eq!(rt; get.view, 2);
    assert_written(&rt, get.encode(rt.alloc()), &VIEW)
}

#[test]
fn drops_a_field_that_a_message_has_not(rt: HostRuntime) -> Result<(), Fail> {
    let finalise = FinalizeWriteStreamRequest::decode(rt.alloc(), &VIEW)?;
    assert_written(&rt, finalise.encode(rt.alloc()), &VIEW[..3])
}

/// Second 5 and nanosecond 7.
const MOMENT: [u8; 4] = [0x08, 5, 0x10, 7];

#[test]
fn reads_and_writes_a_moment(rt: HostRuntime) -> Result<(), Fail> {
    let moment = Timestamp::decode(rt.alloc(), &MOMENT)?;
    assert_eq!(rt; (moment.seconds, moment.nanos), (5, 7));
    assert_written(&rt, moment.encode(rt.alloc()), &MOMENT)
}

/// The code 2, the entity `e` and the message `m`.
const STORAGE_ERROR: [u8; 8] = [0x08, 2, 0x12, 1, 0x65, 0x1a, 1, 0x6d];

#[test]
fn reads_and_writes_an_error_of_a_stream(rt: HostRuntime) -> Result<(), Fail> {
    let error = StorageError::decode(rt.alloc(), &STORAGE_ERROR)?;
    assert_eq!(rt;
        (error.code, error.entity.text(), error.error_message.text()),
        (2, "e", "m")
    );
    assert_written(&rt, error.encode(rt.alloc()), &STORAGE_ERROR)
}

/// The streams `a` and `b` of `p`.
const COMMIT: [u8; 9] = [0x0a, 1, 0x70, 0x12, 1, 0x61, 0x12, 1, 0x62];

#[test]
fn reads_and_writes_a_commit(rt: HostRuntime) -> Result<(), Fail> {
    let commit = BatchCommitWriteStreamsRequest::decode(rt.alloc(), &COMMIT)?;
    assert_eq!(rt; commit.parent.text(), "p");
    assert_written(&rt, commit.encode(rt.alloc()), &COMMIT)
}

/// Committed at second 5, and an error of code 3 with the entity `e`.
const COMMITTED: [u8; 11] = [0x0a, 2, 0x08, 5, 0x12, 5, 0x08, 3, 0x12, 1, 0x65];

#[test]
fn reads_and_writes_a_reply_to_a_commit(rt: HostRuntime) -> Result<(), Fail> {
    let committed = BatchCommitWriteStreamsResponse::decode(rt.alloc(), &COMMITTED)?;
    assert!(rt; committed.commit_time.is_some());
    assert_written(&rt, committed.encode(rt.alloc()), &COMMITTED)
}
