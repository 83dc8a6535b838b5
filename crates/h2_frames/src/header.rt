//! The nine bytes before a payload.

ghost use Rattle.std.specs.Prelude.{◌≡◌, ◌+◌, ◌<◌, ◌≤◌, ◌^◌, ◌++◌, length, MatchResult, OnOk, OnErr, vec_len, vec_capacity};
ghost use Rattle.h2_frames.specs.Header.{header_len};

use crate::kind::Kind;
use outside::Memory;
use wire_bytes::{Cursor, Short, put_u24, put_u32};

/// The number of bytes before a payload (RFC 9113 section 4.1).
pub const HEADER_LEN: usize = 9;

/// The greatest payload, in bytes, that a peer may send (RFC 9113 section 4.2).
pub const MAX_FRAME_SIZE: u32 = 16_384;

/// END_STREAM of DATA and HEADERS.
pub const END_STREAM: u8 = 0x1;
/// ACK of SETTINGS and PING.
pub const ACK: u8 = 0x1;
/// END_HEADERS of HEADERS and CONTINUATION.
pub const END_HEADERS: u8 = 0x4;
/// PADDED of DATA, HEADERS and PUSH_PROMISE.
pub const PADDED: u8 = 0x8;
/// PRIORITY of HEADERS.
pub const PRIORITY: u8 = 0x20;

/// What stands before a payload.
#[derive(Clone, Copy, Debug)]
pub struct Header {
    /// The payload's length, in bytes.
    pub length: u32,
    pub kind: Kind,
    pub flags: u8,
    /// The stream's id, without the reserved bit.
    pub stream: u32,
}

impl Header {
    ghost use Rattle.std.specs.Prelude.{not, ◌==◌, bit_and};
    ghost use Rattle.h2_frames.specs.Header.{header_of, has_flag};
    ghost use Rattle.h2_frames.specs.Spelling.{header_bytes};

    /// The header that the bytes begin with; [`Short`] where they are fewer than nine.
    #[tactic(auto, unfolding(crate::specs::Header::header_of))]
    pub fn of(bytes: &[u8]) -> Result<Header, Short>
        ensures { MatchResult result (λ header. (header_len ≤ length bytes.now) × (header ≡ header_of bytes.now)) (λ _. length bytes.now < header_len) }
    {
        let mut cursor = Cursor::new(bytes);
        let length = cursor.take_u24()?;
        let kind = Kind::of(cursor.take_u8()?);
        let flags = cursor.take_u8()?;
        let stream = cursor.take_u32()? & 0x7fff_ffff;
        Ok(Header {
            length,
            kind,
            flags,
            stream,
        })
    }

    /// Whether the flag is set.
    pub fn has(&self, flag: u8) -> bool
        ensures { result ≡ has_flag self.now.flags flag }
    {
        self.flags & flag != 0
    }

    /// Appends the nine bytes, with the reserved bit clear, and makes room for the payload that follows them. Where
    /// memory is refused, `out` is as it was.
    pub fn put(&self, out: &mut Vec<u8>) -> Result<(), Memory>
        requires { self.now.length < 2 ^ 24 }
        ensures ok { OnOk result (out.new.items ≡ out.old.items ++ header_bytes self.now) }
        ensures err { OnErr result (out.new.items ≡ out.old.items) }
        ensures room { OnOk result (vec_len out.new + self.now.length ≤ vec_capacity out.new) }
    {
        out.reserve(HEADER_LEN + self.length as usize)?;
        put_u24(out, self.length)?;
        out.push(self.kind.byte())?;
        out.push(self.flags)?;
        put_u32(out, self.stream)
    }
}
