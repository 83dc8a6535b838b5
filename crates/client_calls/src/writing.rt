//! The bytes that a client writes.

ghost use Rattle.std.specs.Prelude.{◌≡◌, ◌<◌, ◌≤◌, ◌^◌, ◌++◌, true, false, length, IsTrue, IfOk, OnOk};
ghost use Rattle.std.specs.List.{flat_map, list_all};
ghost use Rattle.h2_frames.specs.Header.{max_frame_size};
ghost use Rattle.h2_frames.specs.Reading.{preface};
ghost use Rattle.h2_frames.specs.Sound.{IsStreamId};
ghost use Rattle.h2_frames.specs.Spelling.{spelling};
ghost use Rattle.h2_frames.specs.declared.frame.Frame.TheVariants as frames;
ghost use Rattle.client_calls.specs.Calls.{is_short, may_send};
ghost use Rattle.client_calls.specs.Frames.{request_frame, data_frames, end_frames, message_bytes, call_bytes, client_frames};
ghost use Rattle.client_calls.specs.Given.{AsGiven};

use crate::calls::ClientCall;
use crate::fields::request_fields;
use grpc_frame::frame_message;
use grpc_meta::Method;
use h2_frames::{END_STREAM, Frame, Header, Kind, MAX_FRAME_SIZE, Pairs, write_frame};
use hpack_blocks::write_block;
use outside::{Blob, Memory};
use std::alloc::Global;

/// What a client sends before its first frame (RFC 9113 section 3.4).
const PREFACE: &[u8; 24] = b"PRI * HTTP/2.0\r\n\r\nSM\r\n\r\n";

/// Appends the HEADERS that open a call.
fn put_request(alloc: Global, out: &mut Vec<u8>, stream: u32, method: Method) -> Result<(), Memory>
    requires { IsStreamId stream }
    ensures { OnOk result (out.new.items ≡ out.old.items ++ spelling (request_frame stream method)) }
{
    let fields = request_fields(alloc, method)?;
    let block = write_block(alloc, &fields, false)?;
    write_frame(
        out,
        &Frame::Headers {
            stream,
            end: false,
            whole: true,
            block,
        },
    )
}

/// Appends DATA, with END_STREAM or without.
#[tactic(auto, unfolding(h2_frames::specs::Spelling::spelling))]
fn put_data(out: &mut Vec<u8>, stream: u32, end: bool, payload: &[u8]) -> Result<(), Memory>
    requires { length payload.now ≤ max_frame_size }
    ensures { OnOk result (out.new.items ≡ out.old.items ++ spelling (frames.Body stream end payload.now (length payload.now))) }
{
    let header = Header {
        length: payload.len() as u32,
        kind: Kind::Data,
        flags: if end { END_STREAM } else { 0 },
        stream,
    };
    header.put(out)?;
    out.extend_from_slice(payload)?;
    Ok(())
}

/// Appends the bytes in as few DATA as they fit in.
fn put_pieces(out: &mut Vec<u8>, stream: u32, bytes: &[u8]) -> Result<(), Memory>
    ensures { OnOk result (out.new.items ≡ out.old.items ++ flat_map spelling (data_frames stream bytes.now)) }
{
    let mut rest = bytes;
    while !rest.is_empty() {
        let (payload, behind) = rest.split_at((MAX_FRAME_SIZE as usize).min(rest.len()));
        put_data(out, stream, false, payload)?;
        rest = behind;
    }
    Ok(())
}

/// Appends a message in DATA of its own.
fn put_message(alloc: Global, out: &mut Vec<u8>, stream: u32, message: &[u8]) -> Result<(), Memory>
    requires { length message.now < 2 ^ 32 }
    ensures { OnOk result (out.new.items ≡ out.old.items ++ message_bytes stream message.now) }
{
    let framed = frame_message(alloc, message)?;
    put_pieces(out, stream, framed.bytes())
}

/// Appends message after message.
fn put_messages(
    alloc: Global,
    out: &mut Vec<u8>,
    stream: u32,
    messages: &[Blob],
) -> Result<(), Memory>
    requires { IsTrue (list_all is_short messages.now) }
    ensures { OnOk result (out.new.items ≡ out.old.items ++ flat_map (message_bytes stream) messages.now) }
{
    for message in messages {
        put_message(alloc, out, stream, message.bytes())?;
    }
    Ok(())
}

/// Appends DATA without a byte, with END_STREAM, where the client ends the call.
fn put_end(out: &mut Vec<u8>, stream: u32, end: bool) -> Result<(), Memory>
    ensures { OnOk result (out.new.items ≡ out.old.items ++ flat_map spelling (end_frames stream end)) }
{
    if end {
        put_data(out, stream, true, &[])?;
    }
    Ok(())
}

/// Appends a call.
fn put_call(alloc: Global, out: &mut Vec<u8>, call: &ClientCall) -> Result<(), Memory>
    requires id { IsStreamId call.now.stream }
    requires short { IsTrue (list_all is_short call.now.messages.items) }
    ensures { OnOk result (out.new.items ≡ out.old.items ++ call_bytes call.now) }
{
    put_request(alloc, out, call.stream, call.method)?;
    put_messages(alloc, out, call.stream, &call.messages)?;
    put_end(out, call.stream, call.end)?;
    Ok(())
}

/// Appends call after call.
fn put_calls(alloc: Global, out: &mut Vec<u8>, calls: &[ClientCall]) -> Result<(), Memory>
    requires { IsTrue (may_send calls.now) }
    ensures { OnOk result (out.new.items ≡ out.old.items ++ flat_map call_bytes calls.now) }
{
    for call in calls {
        put_call(alloc, out, call)?;
    }
    Ok(())
}

/// The preface, the SETTINGS and the calls.
fn spelled_calls(alloc: Global, calls: &[ClientCall]) -> Result<Blob, Memory>
    requires { IsTrue (may_send calls.now) }
    ensures { IfOk result (λ bytes. bytes ≡ preface ++ flat_map spelling (client_frames calls.now)) }
{
    let mut out = Vec::new(alloc);
    out.extend_from_slice(PREFACE)?;
    let settings = Frame::Settings {
        ack: false,
        pairs: Pairs::from_vec(Vec::new(alloc)),
    };
    write_frame(&mut out, &settings)?;
    put_calls(alloc, &mut out, calls)?;
    Ok(Blob::from_vec(out))
}

/// All that a client writes on a connection on which it makes these calls, one behind the other.
///
/// [`crate::may_send`] holds of the calls. Each message stands in DATA of its own, of at most 16,384 bytes each, and a
/// call is ended by DATA without a byte. The client doesn't wait: a server that lets it write no more, by a window or by
/// the number of streams that may live at once, resets the stream that goes beyond.
pub fn client_bytes(alloc: Global, calls: &[ClientCall]) -> Result<Blob, Memory>
    requires { IsTrue (may_send calls.now) }
    ensures exact { IfOk result (λ bytes. bytes ≡ preface ++ flat_map spelling (client_frames calls.now)) }
    // They are read as the calls, break no rule of a connection, and tell the server each call.
    ensures given { IfOk result (λ bytes. AsGiven calls.now bytes) }
{
    spelled_calls(alloc, calls)
}
