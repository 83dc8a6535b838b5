//! How the frames of an answer are spelled. Each is appended whole; where memory is refused, nothing is.

ghost use Rattle.std.specs.Prelude.{◌≡◌, ◌+◌, ◌^◌, ◌<◌, ◌≤◌, [], ◌∷◌, ◌++◌, true, false, length, take, OnOk, OnErr, if◌then◌else◌};
ghost use Rattle.std.specs.List.{concat};
ghost use Rattle.h2_frames.specs.Header.{max_frame_size};
ghost use Rattle.h2_frames.specs.Sound.{IsStreamId};
ghost use Rattle.h2_frames.specs.Spelling.{spelling};
ghost use Rattle.h2_frames.specs.declared.frame.Frame.TheVariants as frames;
ghost use Rattle.h2_answers.specs.Due.{block_of};

use crate::replies::Replies;
use h2_frames::{END_HEADERS, END_STREAM, Frame, Header, Kind, write_frame};
use outside::Memory;

/// The number of bytes of RST_STREAM: a header, and an error code in four bytes (RFC 9113 section 6.4).
pub(crate) const RESET_LEN: u32 = 13;

/// A dynamic table size update to 0 (RFC 7541 section 6.3).
const TABLE_OF_SIZE_0: [u8; 1] = [0x20];

// What stands before a block: the first of a connection begins with a dynamic table size update to 0.
fn before_block<'a>(first: bool) -> &'a [u8]
    ensures { result.now ≡ (if first then 32 ∷ [] else []) }
{
    if first { &TABLE_OF_SIZE_0 } else { &[] }
}

/// HEADERS with a whole block.
#[tactic(auto, unfolding(h2_frames::specs::Spelling::spelling))]
pub(crate) fn put_headers(
    out: &mut Vec<u8>,
    stream: u32,
    end: bool,
    first: bool,
    block: &[u8],
) -> Result<(), Memory>
    requires { length block.now < max_frame_size }
    ensures ok { OnOk result (out.new.items ≡ out.old.items ++ spelling (frames.Headers stream end true (block_of first block.now))) }
    ensures err { OnErr result (out.new.items ≡ out.old.items) }
{
    let before = before_block(first);
    let flags = if end {
        END_STREAM + END_HEADERS
    } else {
        END_HEADERS
    };
    let header = Header {
        length: (before.len() + block.len()) as u32,
        kind: Kind::Headers,
        flags,
        stream,
    };
    header.put(out)?;
    out.extend_from_slice(before)?;
    out.extend_from_slice(block)?;
    Ok(())
}

/// DATA of the first `len` bytes that wait, each copied once.
#[tactic(auto, unfolding(h2_frames::specs::Spelling::spelling))]
pub(crate) fn put_data(
    out: &mut Vec<u8>,
    stream: u32,
    replies: &Replies,
    len: u32,
) -> Result<(), Memory>
    requires small { len ≤ max_frame_size }
    requires there { len ≤ length (concat replies.now) }
    ensures ok { OnOk result (out.new.items ≡ out.old.items ++ spelling (frames.Body stream false (take len (concat replies.now)) len)) }
    ensures err { OnErr result (out.new.items ≡ out.old.items) }
{
    let header = Header {
        length: len,
        kind: Kind::Data,
        flags: 0,
        stream,
    };
    header.put(out)?;
    replies.copy_front(out, len as usize);
    Ok(())
}

/// RST_STREAM.
pub(crate) fn put_reset(out: &mut Vec<u8>, stream: u32, code: u32) -> Result<(), Memory>
    requires { IsStreamId stream }
    ensures ok { OnOk result (out.new.items ≡ out.old.items ++ spelling (frames.Reset stream code)) }
    ensures err { OnErr result (out.new.items ≡ out.old.items) }
{
    write_frame(out, &Frame::Reset { stream, code })
}
