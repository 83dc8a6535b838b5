//! What a whole payload is: the frame that it spells, or the rule that it breaks.

ghost use Rattle.std.specs.Prelude.{◌≡◌, ◌+◌, ◌-◌, ◌≤◌, ◌<◌, None, length, take, drop, IfOk, OnErr};
ghost use Rattle.h2_frames.specs.Header.{number31_of};
ghost use Rattle.h2_frames.specs.Content.{front_len, padding_len, content_of};
ghost use Rattle.h2_frames.specs.Fault.{breaks_stream, breaks_length, breaks_padding, breaks_push, fault_in};
ghost use Rattle.h2_frames.specs.Frame.{pair_of, pairs_of, frame_of};
ghost use Rattle.wire_bytes.specs.Number.{number_of};

use crate::fault::H2Fault;
use crate::frame::Frame;
use crate::header::{ACK, END_HEADERS, END_STREAM, Header, PADDED, PRIORITY};
use crate::kind::Kind;
use crate::pairs::{PAIR_LEN, Pair, Pairs};
use outside::{Blob, Memory};
use std::alloc::Global;
use std::mem;

/// PROTOCOL_ERROR (RFC 9113 section 7).
pub const PROTOCOL_ERROR: u32 = 1;
/// FRAME_SIZE_ERROR (RFC 9113 section 7).
pub const FRAME_SIZE_ERROR: u32 = 6;

/// The bytes of the priority fields of HEADERS: a stream and a weight (RFC 9113 section 6.2).
const PRIORITY_LEN: usize = 5;

/// The low 31 bits of a field whose first bit is reserved.
const LOW_31_BITS: u32 = 0x7fff_ffff;

/// The bytes of a payload before its content: the pad length and the priority fields.
fn front_len(header: &Header) -> usize
    ensures { result ≡ front_len header.now.kind header.now.flags }
{
    let pad_length_len = if header.has(PADDED) { 1 } else { 0 };
    let priority_len = if header.has(PRIORITY) {
        PRIORITY_LEN
    } else {
        0
    };
    match header.kind {
        Kind::Data | Kind::PushPromise => pad_length_len,
        Kind::Headers => pad_length_len + priority_len,
        _ => 0,
    }
}

/// The bytes of padding behind the content of DATA or HEADERS.
fn padding_len(header: &Header, payload: &[u8]) -> usize
    ensures { result ≡ padding_len header.now.flags payload.now }
{
    if header.has(PADDED) {
        payload.first().copied().map_or(0, usize::from)
    } else {
        0
    }
}

/// Whether the frame stands on a stream where its type may not.
fn breaks_stream(header: &Header) -> bool
    ensures { result ≡ breaks_stream header.now.kind header.now.stream }
{
    match header.kind {
        Kind::Data | Kind::Headers | Kind::Priority | Kind::RstStream | Kind::Continuation =>
            header.stream == 0,
        Kind::Settings | Kind::Ping | Kind::GoAway => header.stream != 0,
        Kind::PushPromise | Kind::WindowUpdate | Kind::Unknown(_) => false,
    }
}

/// Whether a payload of `len` bytes is too short or too long for its type.
fn breaks_length(header: &Header, len: usize) -> bool
    ensures { result ≡ breaks_length header.now.kind header.now.flags len }
{
    match header.kind {
        Kind::Data | Kind::Headers | Kind::PushPromise => len < front_len(header),
        Kind::Priority => len != 5,
        Kind::RstStream | Kind::WindowUpdate => len != 4,
        Kind::Settings => len % PAIR_LEN != 0 || (header.has(ACK) && len != 0),
        Kind::Ping => len != 8,
        Kind::GoAway => len < 8,
        Kind::Continuation | Kind::Unknown(_) => false,
    }
}

/// Whether the padding is longer than what is left for it.
fn breaks_padding(header: &Header, payload: &[u8]) -> bool
    ensures { result ≡ breaks_padding header.now.kind header.now.flags payload.now }
{
    match header.kind {
        Kind::Data | Kind::Headers => {
            payload.len() < front_len(header) + padding_len(header, payload)
        }
        _ => false,
    }
}

/// The least rule that a whole frame breaks.
#[tactic(auto, unfolding(crate::specs::Fault::fault_in))]
pub fn fault_in(header: &Header, payload: &[u8]) -> Option<H2Fault>
    ensures { result ≡ fault_in header.now payload.now }
{
    let (code, rule) = if breaks_stream(header) {
        (PROTOCOL_ERROR, 3)
    } else if breaks_length(header, payload.len()) {
        (FRAME_SIZE_ERROR, 4)
    } else if breaks_padding(header, payload) {
        (PROTOCOL_ERROR, 5)
    } else if header.kind == Kind::PushPromise {
        (PROTOCOL_ERROR, 6)
    } else {
        return None;
    };
    Some(H2Fault { code, rule })
}

/// The number that four bytes spell.
fn number(bytes: &[u8]) -> u32
    requires { length bytes.now ≡ 4 }
    ensures { result ≡ number_of bytes.now }
{
    u32::from_be_bytes([bytes[0], bytes[1], bytes[2], bytes[3]])
}

/// The pair that six bytes spell.
fn pair(six: &[u8]) -> Pair
    requires { length six.now ≡ 6 }
    ensures { result ≡ pair_of six.now }
{
    Pair {
        id: u16::from_be_bytes([six[0], six[1]]),
        value: number(&six[2..]),
    }
}

/// The pairs of a SETTINGS frame.
fn pairs(alloc: Global, payload: &[u8]) -> Result<Pairs, Memory>
    ensures { IfOk result (λ pairs. pairs ≡ pairs_of payload.now) }
{
    let mut pairs = Vec::with_capacity(alloc, payload.len() / PAIR_LEN)?;
    let mut rest = payload;
    while rest.len() >= PAIR_LEN {
        let (six, after) = rest.split_at(PAIR_LEN);
        pairs.push(pair(six))?;
        rest = after;
    }
    Ok(Pairs::from_vec(pairs))
}

/// The payload's bytes from `start` to `end`: the payload itself where these are all its bytes, else a copy.
fn part(alloc: Global, payload: &mut Vec<u8>, start: usize, end: usize) -> Result<Blob, Memory>
    requires ordered { start ≤ end }
    requires within { end ≤ length payload.old.items }
    ensures ok { IfOk result (λ bytes. bytes ≡ take (end - start) (drop start payload.old.items)) }
    ensures err { OnErr result (payload.new.items ≡ payload.old.items) }
{
    if start == 0 && end == payload.len() {
        return Ok(Blob::from_vec(mem::replace(payload, Vec::new(alloc))));
    }
    Blob::of(alloc, &payload[start..end])
}

/// The content of DATA and HEADERS: the payload without its pad length, its priority fields and its padding.
fn content(alloc: Global, header: &Header, payload: &mut Vec<u8>) -> Result<Blob, Memory>
    requires { front_len header.now.kind header.now.flags + padding_len header.now.flags payload.old.items ≤ length payload.old.items }
    ensures ok { IfOk result (λ bytes. bytes ≡ content_of header.now.kind header.now.flags payload.old.items) }
    ensures err { OnErr result (payload.new.items ≡ payload.old.items) }
{
    let start = front_len(header);
    let end = payload.len() - padding_len(header, payload);
    part(alloc, payload, start, end)
}

/// The frame that a whole payload spells, of a header and a payload that no rule refuses. The payload is used up
/// where it is the frame's content as it stands; where memory is refused, it is as it was.
#[tactic(auto, unfolding(crate::specs::Frame::frame_of))]
pub fn frame_of(alloc: Global, header: &Header, payload: &mut Vec<u8>) -> Result<Frame, Memory>
    requires whole { length payload.old.items ≡ header.now.length }
    requires sound { fault_in header.now payload.old.items ≡ None }
    ensures ok { IfOk result (λ frame. frame ≡ frame_of header.now payload.old.items) }
    ensures err { OnErr result (payload.new.items ≡ payload.old.items) }
{
    let stream = header.stream;
    match header.kind {
        Kind::Data => Ok(Frame::Body {
            stream,
            end: header.has(END_STREAM),
            counted: header.length,
            bytes: content(alloc, header, payload)?,
        }),
        Kind::Headers => Ok(Frame::Headers {
            stream,
            end: header.has(END_STREAM),
            whole: header.has(END_HEADERS),
            block: content(alloc, header, payload)?,
        }),
        Kind::Priority => Ok(Frame::Priority { stream }),
        Kind::RstStream => Ok(Frame::Reset {
            stream,
            code: number(payload),
        }),
        Kind::Settings => Ok(Frame::Settings {
            ack: header.has(ACK),
            pairs: pairs(alloc, payload)?,
        }),
        Kind::PushPromise => Ok(Frame::Push { stream }),
        Kind::Ping => Ok(Frame::Ping {
            ack: header.has(ACK),
            octets: octets(payload),
        }),
        Kind::GoAway => Ok(goaway(payload)),
        Kind::WindowUpdate => Ok(Frame::Window {
            stream,
            add: number(payload) & LOW_31_BITS,
        }),
        Kind::Continuation => Ok(Frame::Continuation {
            stream,
            whole: header.has(END_HEADERS),
            block: Blob::from_vec(mem::replace(payload, Vec::new(alloc))),
        }),
        Kind::Unknown(kind) => Ok(Frame::Unknown { kind, stream }),
    }
}

/// The eight bytes of PING.
fn octets(payload: &[u8]) -> [u8; 8]
    requires { length payload.now ≡ 8 }
    ensures { result ≡ payload.now }
{
    [
        payload[0], payload[1], payload[2], payload[3], payload[4], payload[5], payload[6],
        payload[7],
    ]
}

/// The last stream and the code of GOAWAY, before its debug data.
fn goaway(payload: &[u8]) -> Frame
    requires { 8 ≤ length payload.now }
    ensures { result ≡ Frame.Goaway (number31_of (take 4 payload.now)) (number_of (take 4 (drop 4 payload.now))) }
{
    let (last, rest) = payload.split_at(4);
    Frame::Goaway {
        last: number(last) & LOW_31_BITS,
        code: number(&rest[..4]),
    }
}
