//! The writer of frames.

ghost use Rattle.std.specs.Prelude.{◌≡◌, ◌+◌, ◌≤◌, ◌++◌, ◌*◌, length, OnOk, OnErr, vec_len, vec_capacity};
ghost use Rattle.std.specs.List.{flat_map};
ghost use Rattle.wire_bytes.specs.Number.{bytes_of};
ghost use Rattle.h2_frames.specs.Header.{max_frame_size};
ghost use Rattle.h2_frames.specs.Sound.{IsInRange};
ghost use Rattle.h2_frames.specs.Spelled.{Spells, IsAllowed};
ghost use Rattle.h2_frames.specs.Spelling.{frame_bytes, flag_if, pair_bytes, spelling, IsWritable};

use crate::frame::Frame;
use crate::header::{ACK, END_HEADERS, END_STREAM, Header};
use crate::kind::Kind;
use crate::pairs::{PAIR_LEN, Pair, Pairs};
use outside::Memory;
use wire_bytes::{put_u16, put_u32};

/// The payload of PRIORITY: no exclusive bit, a dependency on stream 0 and a weight of 16, as where no priority was
/// sent (RFC 9113 section 5.3.2).
const DEFAULT_PRIORITY: [u8; 5] = [0, 0, 0, 0, 15];

/// Appends the frame, without padding. Where memory is refused, `out` is as it was.
///
/// The frame is one that some bytes without padding spell, with a payload of at most 16,384 bytes, and that no rule of
/// a reader refuses. What is written is read as the frame again, whatever follows it.
pub fn write_frame(out: &mut Vec<u8>, frame: &Frame) -> Result<(), Memory>
    requires { IsWritable frame.now }
    ensures ok { OnOk result (out.new.items ≡ out.old.items ++ spelling frame.now) }
    ensures err { OnErr result (out.new.items ≡ out.old.items) }
    ensures spelled { IsInRange frame.now → Spells frame.now (spelling frame.now) × IsAllowed (spelling frame.now) }
{
    put_frame(out, frame)
}

#[tactic(auto, unfolding(crate::specs::Spelling::spelling))]
fn put_frame(out: &mut Vec<u8>, frame: &Frame) -> Result<(), Memory>
    requires { IsWritable frame.now }
    ensures ok { OnOk result (out.new.items ≡ out.old.items ++ spelling frame.now) }
    ensures err { OnErr result (out.new.items ≡ out.old.items) }
{
    match frame {
        Frame::Body {
            stream,
            end,
            bytes,
            ..
        } => put(
            out,
            Kind::Data,
            flag_if(*end, END_STREAM),
            *stream,
            bytes.bytes(),
        ),
        Frame::Headers {
            stream,
            end,
            whole,
            block,
        } => put(
            out,
            Kind::Headers,
            flag_if(*end, END_STREAM) + flag_if(*whole, END_HEADERS),
            *stream,
            block.bytes(),
        ),
        Frame::Priority { stream } => put(out, Kind::Priority, 0, *stream, &DEFAULT_PRIORITY),
        Frame::Reset { stream, code } => {
            put(out, Kind::RstStream, 0, *stream, &code.to_be_bytes())
        }
        Frame::Settings { ack, pairs } => put_settings(out, *ack, pairs),
        Frame::Push { .. } => unreachable!(),
        Frame::Ping { ack, octets } => put(out, Kind::Ping, flag_if(*ack, ACK), 0, octets),
        Frame::Goaway { last, code } => put_goaway(out, *last, *code),
        Frame::Window { stream, add } => {
            put(out, Kind::WindowUpdate, 0, *stream, &add.to_be_bytes())
        }
        Frame::Continuation {
            stream,
            whole,
            block,
        } => put(
            out,
            Kind::Continuation,
            flag_if(*whole, END_HEADERS),
            *stream,
            block.bytes(),
        ),
        Frame::Unknown { kind, stream } => put(out, Kind::Unknown(*kind), 0, *stream, &[]),
    }
}

/// The flag where it is set.
fn flag_if(set: bool, flag: u8) -> u8
    ensures { result ≡ flag_if set flag }
{
    if set { flag } else { 0 }
}

/// Appends a header and its payload: the room is made first, so that nothing is appended where memory is refused.
fn put(out: &mut Vec<u8>, kind: Kind, flags: u8, stream: u32, payload: &[u8]) -> Result<(), Memory>
    requires { length payload.now ≤ max_frame_size }
    ensures ok { OnOk result (out.new.items ≡ out.old.items ++ frame_bytes kind flags stream payload.now) }
    ensures err { OnErr result (out.new.items ≡ out.old.items) }
{
    let header = Header {
        length: payload.len() as u32,
        kind,
        flags,
        stream,
    };
    header.put(out)?;
    out.extend_from_slice(payload)?;
    Ok(())
}

/// Appends SETTINGS.
fn put_settings(out: &mut Vec<u8>, ack: bool, pairs: &Pairs) -> Result<(), Memory>
    requires { 6 * length pairs.now ≤ max_frame_size }
    ensures ok { OnOk result (out.new.items ≡ out.old.items ++ frame_bytes Kind.Settings (flag_if ack 1) 0 (flat_map pair_bytes pairs.now)) }
    ensures err { OnErr result (out.new.items ≡ out.old.items) }
{
    let pairs = pairs.items();
    let header = Header {
        length: (PAIR_LEN * pairs.len()) as u32,
        kind: Kind::Settings,
        flags: flag_if(ack, ACK),
        stream: 0,
    };
    header.put(out)?;
    put_pairs(out, pairs);
    Ok(())
}

/// Appends the pairs, six bytes each. Room for them is there.
fn put_pairs(out: &mut Vec<u8>, pairs: &[Pair])
    requires { vec_len out.old + 6 * length pairs.now ≤ vec_capacity out.old }
    ensures { out.new.items ≡ out.old.items ++ flat_map pair_bytes pairs.now }
{
    for pair in pairs {
        put_u16(out, pair.id).unwrap();
        put_u32(out, pair.value).unwrap();
    }
}

/// Appends GOAWAY, with no debug data.
fn put_goaway(out: &mut Vec<u8>, last: u32, code: u32) -> Result<(), Memory>
    ensures ok { OnOk result (out.new.items ≡ out.old.items ++ frame_bytes Kind.GoAway 0 0 (bytes_of 4 last ++ bytes_of 4 code)) }
    ensures err { OnErr result (out.new.items ≡ out.old.items) }
{
    let header = Header {
        length: 8,
        kind: Kind::GoAway,
        flags: 0,
        stream: 0,
    };
    header.put(out)?;
    put_u32(out, last)?;
    put_u32(out, code)
}
