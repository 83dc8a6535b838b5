//! Frames by the bytes of RFC 9113 section 6, and those that clients and servers exchange over gRPC.

ghost use Rattle.h2_frames.specs.Spelling.{IsWritable};

use h2_frames::*;
use outside::{Blob, Memory};
use std::alloc::{AllocError, Global};
use std::process::Abort;
use std::test::Fail;

/// What a client sends first (RFC 9113 section 3.4).
const PREFACE: &[u8; 24] = b"PRI * HTTP/2.0\r\n\r\nSM\r\n\r\n";

fn shown_frame(alloc: Global, frame: &Frame) -> Result<String, AllocError> {
    match frame {
        Frame::Body {
            stream,
            end,
            bytes,
            counted,
        } => format!(in alloc; "DATA {stream} {end} {counted} {:?}", bytes.bytes()),
        Frame::Headers {
            stream,
            end,
            whole,
            block,
        } => format!(in alloc; "HEADERS {stream} {end} {whole} {:?}", block.bytes()),
        Frame::Priority { stream } => format!(in alloc; "PRIORITY {stream}"),
        Frame::Reset { stream, code } => format!(in alloc; "RST_STREAM {stream} {code}"),
        Frame::Settings { ack, pairs } => {
            format!(in alloc; "SETTINGS {ack} {:?}", pairs.items())
        }
        Frame::Push { stream } => format!(in alloc; "PUSH_PROMISE {stream}"),
        Frame::Ping { ack, octets } => format!(in alloc; "PING {ack} {octets:?}"),
        Frame::Goaway { last, code } => format!(in alloc; "GOAWAY {last} {code}"),
        Frame::Window { stream, add } => format!(in alloc; "WINDOW_UPDATE {stream} {add}"),
        Frame::Continuation {
            stream,
            whole,
            block,
        } => format!(in alloc; "CONTINUATION {stream} {whole} {:?}", block.bytes()),
        Frame::Unknown { kind, stream } => format!(in alloc; "type {kind} {stream}"),
    }
}

fn shown(alloc: Global, next: &Next) -> Result<String, AllocError> {
    match next {
        Next::Frame(frame) => shown_frame(alloc, frame),
        Next::More => String::from_str(alloc, "more"),
        Next::Fault(fault) => format!(in alloc; "code {} rule {}", fault.code, fault.rule),
    }
}

/// The answer to the next piece of some bytes, and the bytes behind it.
fn next_answer<'a>(
    reader: &mut FrameReader,
    alloc: Global,
    bytes: &'a [u8],
    piece: usize,
) -> Result<(Next, &'a [u8]), Memory> {
    let n = piece.min(reader.need()).min(bytes.len());
    let (now, after) = bytes.split_at(n);
    reader.feed(alloc, now)?;
    Ok((reader.next(alloc)?, after))
}

/// The first answer but `More` to the bytes after the preface, fed in pieces.
fn answer(alloc: Global, bytes: &[u8], piece: usize) -> Result<Next, Memory> {
    let mut reader = FrameReader::new(alloc);
    reader.feed(alloc, PREFACE)?;
    let mut rest = bytes;
    for _ in 0..bytes.len() {
        let (next, after) = next_answer(&mut reader, alloc, rest, piece)?;
        if !matches!(next, Next::More) {
            return Ok(next);
        }
        rest = after;
    }
    Ok(Next::More)
}

/// The bytes of a frame, and how the answer to them is shown.
type Case = (&'static [u8], &'static str);

const FRAMES_OF_A_STREAM: [Case; 8] = [
    (
        b"\0\0\x05\0\0\0\0\0\x01hello",
        "DATA 1 false 5 [104, 101, 108, 108, 111]",
    ),
    (
        b"\0\0\x05\0\x09\x80\0\0\x01\x02hi\0\0",
        "DATA 1 true 5 [104, 105]",
    ),
    (
        b"\0\0\x02\x01\x04\0\0\0\x01\x20\x88",
        "HEADERS 1 false true [32, 136]",
    ),
    (
        b"\0\0\x0a\x01\x29\0\0\0\x03\x02\x80\0\0\x01\x0f\x82\x84\0\0",
        "HEADERS 3 true false [130, 132]",
    ),
    (b"\0\0\x05\x02\0\0\0\0\x05\0\0\0\x03\x10", "PRIORITY 5"),
    (b"\0\0\x04\x03\0\0\0\0\x01\0\0\0\x08", "RST_STREAM 1 8"),
    (
        b"\0\0\x01\x09\x04\0\0\0\x01\x82",
        "CONTINUATION 1 true [130]",
    ),
    (b"\0\0\x03\x0a\xff\0\0\0\x09abc", "type 10 9"),
];

const FRAMES_OF_THE_CONNECTION: [Case; 5] = [
    (b"\0\0\0\x04\x01\0\0\0\0", "SETTINGS true []"),
    (
        b"\0\0\x06\x04\0\0\0\0\0\0\xff\0\0\0\x01",
        "SETTINGS false [Pair { id: 255, value: 1 }]",
    ),
    (
        b"\0\0\x08\x06\0\0\0\0\0\x01\x02\x03\x04\x05\x06\x07\x08",
        "PING false [1, 2, 3, 4, 5, 6, 7, 8]",
    ),
    (
        b"\0\0\x0a\x07\0\0\0\0\0\x80\0\0\x07\0\0\0\x02ok",
        "GOAWAY 7 2",
    ),
    (
        b"\0\0\x04\x08\0\0\0\0\0\x80\x0f\0\x01",
        "WINDOW_UPDATE 0 983041",
    ),
];

const BROKEN_RULES: [Case; 10] = [
    (b"\0\x40\x01\0\0\0\0\0\x01", "code 6 rule 2"),
    (b"\0\x40\0\0\0\0\0\0\x01", "more"),
    (b"\0\0\0\0\0\0\0\0\0", "code 1 rule 3"),
    (b"\0\0\0\x04\0\0\0\0\x01", "code 1 rule 3"),
    (
        b"\0\0\x07\x06\0\0\0\0\0\x01\x02\x03\x04\x05\x06\x07",
        "code 6 rule 4",
    ),
    (b"\0\0\x07\x04\0\0\0\0\0\0\x04\0\0\0\x04\0", "code 6 rule 4"),
    (b"\0\0\0\0\x08\0\0\0\x01", "code 6 rule 4"),
    (b"\0\0\x04\x01\x20\0\0\0\x01\0\0\0\0", "code 6 rule 4"),
    (b"\0\0\x01\0\x08\0\0\0\x01\x01", "code 1 rule 5"),
    (b"\0\0\x04\x05\x04\0\0\0\x01\0\0\0\x02", "code 1 rule 6"),
];

/// Checks each answer to bytes in pieces of one byte, and of as many as are missing.
fn assert_answers(rt: &impl Abort, alloc: Global, cases: &[Case]) -> Result<(), Memory> {
    for (bytes, want) in cases {
        for piece in [1, 16_384] {
            let text = shown(alloc, &answer(alloc, bytes, piece)?)?;
            assert_eq!(rt; text.as_str(), *want, "in pieces of {piece}");
        }
    }
    Ok(())
}

#[test]
fn frames_of_a_stream_are_read(rt: HostRuntime) -> Result<(), Fail> {
    Ok(assert_answers(&rt, rt.alloc(), &FRAMES_OF_A_STREAM)?)
}

#[test]
fn frames_of_the_connection_are_read(rt: HostRuntime) -> Result<(), Fail> {
    Ok(assert_answers(&rt, rt.alloc(), &FRAMES_OF_THE_CONNECTION)?)
}

#[test]
fn a_broken_rule_is_the_answer(rt: HostRuntime) -> Result<(), Fail> {
    Ok(assert_answers(&rt, rt.alloc(), &BROKEN_RULES)?)
}

/// The reader's next answer, as it is shown.
fn shown_next(reader: &mut FrameReader, alloc: Global) -> Result<String, Memory> {
    Ok(shown(alloc, &reader.next(alloc)?)?)
}

#[test]
fn what_the_preface_lacks_is_counted(rt: HostRuntime) -> Result<(), Fail> {
    let mut reader = FrameReader::new(rt.alloc());
    assert_eq!(rt; (reader.held(), reader.need()), (0, 24));
    reader.feed(rt.alloc(), b"PRI * HTTP")?;
    assert_eq!(rt; (reader.held(), reader.need()), (10, 14));
    assert_eq!(rt; shown_next(&mut reader, rt.alloc())?.as_str(), "more");
    assert_eq!(rt; reader.need(), 14);
    Ok(())
}

#[test]
fn what_a_frame_lacks_is_counted(rt: HostRuntime) -> Result<(), Fail> {
    let mut reader = FrameReader::new(rt.alloc());
    reader.feed(rt.alloc(), b"PRI * HTTP")?;
    assert_eq!(rt; (reader.held(), reader.need()), (10, 14));
    reader.feed(rt.alloc(), b"/2.0\r\n\r\nSM\r\n\r\n")?;
    assert_eq!(rt; (reader.held(), reader.need()), (0, 9));
    reader.feed(rt.alloc(), b"\0\x40\0\0\0\0\0\0\x01")?;
    assert_eq!(rt; (reader.held(), reader.need()), (9, 16_384));
    Ok(())
}

#[test]
fn a_wrong_byte_of_the_preface_is_a_fault_at_once(rt: HostRuntime) -> Result<(), Fail> {
    let alloc = rt.alloc();
    let mut reader = FrameReader::new(alloc);
    reader.feed(alloc, b"PRI ")?;
    assert_eq!(rt; shown_next(&mut reader, alloc)?.as_str(), "more");
    assert_eq!(rt; reader.need(), 20);
    reader.feed(alloc, b"\0")?;
    for _ in 0..2 {
        assert_eq!(rt; shown_next(&mut reader, alloc)?.as_str(), "code 1 rule 1");
    }
    Ok(())
}

/// Checks that a frame is written as these bytes, behind what was written before.
fn assert_written(rt: &impl Abort, alloc: Global, frame: &Frame, bytes: &[u8]) -> Result<(), Fail>
    requires { IsWritable frame.now }
{
    let mut out = vec![in alloc; b'.']?;
    write_frame(&mut out, frame)?;
    assert_eq!(rt; out.as_slice().strip_prefix(b"."), Some(bytes));
    Ok(())
}

#[test]
fn settings_are_written(rt: HostRuntime) -> Result<(), Fail> {
    let limits = vec![in rt.alloc();
        Pair { id: 3, value: 100 },
        Pair {
            id: 6,
            value: 16_384
        },
    ]?;
    let settings = Frame::Settings {
        ack: false,
        pairs: Pairs::from_vec(limits),
    };
    assert_written(
        &rt,
        rt.alloc(),
        &settings,
        b"\0\0\x0c\x04\0\0\0\0\0\0\x03\0\0\0\x64\0\x06\0\0\x40\0",
    )
}

#[test]
fn answers_to_settings_and_pings_are_written(rt: HostRuntime) -> Result<(), Fail> {
    let pairs = Pairs::from_vec(Vec::new(rt.alloc()));
    let settings = Frame::Settings { ack: true, pairs };
    assert_written(&rt, rt.alloc(), &settings, b"\0\0\0\x04\x01\0\0\0\0")?;
    let ping = Frame::Ping {
        ack: true,
        octets: [1, 2, 3, 4, 5, 6, 7, 8],
    };
    assert_written(
        &rt,
        rt.alloc(),
        &ping,
        b"\0\0\x08\x06\x01\0\0\0\0\x01\x02\x03\x04\x05\x06\x07\x08",
    )
}

#[test]
fn windows_and_the_end_of_a_connection_are_written(rt: HostRuntime) -> Result<(), Fail> {
    assert_written(
        &rt,
        rt.alloc(),
        &Frame::Goaway { last: 0, code: 1 },
        b"\0\0\x08\x07\0\0\0\0\0\0\0\0\0\0\0\0\x01",
    )?;
    assert_written(
        &rt,
        rt.alloc(),
        &Frame::Window { stream: 0, add: 54 },
        b"\0\0\x04\x08\0\0\0\0\0\0\0\0\x36",
    )
}

#[test]
fn headers_are_written(rt: HostRuntime) -> Result<(), Fail> {
    let headers = Frame::Headers {
        stream: 1,
        end: false,
        whole: true,
        block: Blob::of(rt.alloc(), b"\x20\x88\x0f\x10\x10application/grpc")?,
    };
    assert_written(
        &rt,
        rt.alloc(),
        &headers,
        b"\0\0\x15\x01\x04\0\0\0\x01\x20\x88\x0f\x10\x10application/grpc",
    )
}

#[test]
fn trailers_are_written(rt: HostRuntime) -> Result<(), Fail> {
    let trailers = Frame::Headers {
        stream: 1,
        end: true,
        whole: true,
        block: Blob::of(rt.alloc(), b"\0\x0bgrpc-status\x010")?,
    };
    assert_written(
        &rt,
        rt.alloc(),
        &trailers,
        b"\0\0\x0f\x01\x05\0\0\0\x01\0\x0bgrpc-status\x010",
    )
}

#[test]
fn bodies_are_written(rt: HostRuntime) -> Result<(), Fail> {
    let body = Frame::Body {
        stream: 1,
        end: false,
        bytes: Blob::of(rt.alloc(), b"hi")?,
        counted: 2,
    };
    assert_written(&rt, rt.alloc(), &body, b"\0\0\x02\0\0\0\0\0\x01hi")
}

#[test]
fn the_rest_of_a_block_is_written(rt: HostRuntime) -> Result<(), Fail> {
    let rest = Frame::Continuation {
        stream: 3,
        whole: true,
        block: Blob::of(rt.alloc(), b"\x88")?,
    };
    assert_written(&rt, rt.alloc(), &rest, b"\0\0\x01\x09\x04\0\0\0\x03\x88")
}

#[test]
fn frames_without_bytes_are_written(rt: HostRuntime) -> Result<(), Fail> {
    let reset = Frame::Reset { stream: 1, code: 3 };
    let bytes = b"\0\0\x04\x03\0\0\0\0\x01\0\0\0\x03";
    assert_written(&rt, rt.alloc(), &reset, bytes)?;
    let priority = Frame::Priority { stream: 5 };
    let bytes = b"\0\0\x05\x02\0\0\0\0\x05\0\0\0\0\x0f";
    assert_written(&rt, rt.alloc(), &priority, bytes)?;
    let unknown = Frame::Unknown {
        kind: 10,
        stream: 7,
    };
    assert_written(&rt, rt.alloc(), &unknown, b"\0\0\0\x0a\0\0\0\0\x07")
}
