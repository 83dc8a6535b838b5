//! Reading the next piece of a client's bytes.

ghost use Rattle.std.specs.Prelude.{◌≡◌, ◌<◌, ◌≤◌, false, length, IfOk};
ghost use Rattle.std.specs.Vec.{vec_len};
ghost use Rattle.h2_frames.specs.Reading.{need_of};
ghost use Rattle.conn_loop.specs.Hearing.{Takes, Hears};

use h2_frames::{Frame, FrameReader, H2Fault, Next};
use links::{Link, LinkRead, read_at_most};
use outside::Memory;
use std::alloc::Global;

// The longest payload of a frame that a client may send, in bytes (RFC 9113 section 4.2).
const LONGEST_PIECE: usize = 16_384;

/// What one read gave.
#[derive(Drop)]
pub(crate) enum Received {
    /// The last bytes of this frame.
    Frame(Frame),
    /// Bytes of the preface or of a frame that isn't whole yet.
    More,
    /// Bytes that break this rule of framing.
    Fault(H2Fault),
    /// Nothing is there yet.
    NotReady,
    /// The client's bytes came to their end.
    End,
    /// The link met a fault, and no byte came.
    LinkFault,
    /// Bytes came, and there is no memory for them or for their frame.
    Memory,
}

/// What a piece is read into, made once.
#[derive(Drop)]
pub(crate) struct PieceBuffer {
    bytes: Vec<u8>,
    ghost some: { 0 < vec_len bytes },
}

// So many bytes.
fn zeroes(alloc: Global, len: usize) -> Result<Vec<u8>, Memory>
    ensures { IfOk result (λ bytes. vec_len bytes ≡ len) }
{
    Ok(vec![in alloc; 0u8; len]?)
}

impl PieceBuffer {
    /// A buffer for the longest payload.
    pub(crate) fn new(alloc: Global) -> Result<PieceBuffer, Memory> {
        let bytes = zeroes(alloc, LONGEST_PIECE)?;
        Ok(PieceBuffer { bytes })
    }
}

// Feeds a piece to the reader, and asks what it makes whole.
fn take_piece(alloc: Global, reader: &mut FrameReader, bytes: &[u8]) -> Received
    requires few { length bytes.now ≤ need_of reader.old }
    ensures takes { Takes result reader.old reader.new bytes.now }
{
    match reader.feed(alloc, bytes) {
        Ok(()) => {}
        Err(_) => return Received::Memory,
    }
    match reader.next(alloc) {
        Ok(Next::Frame(frame)) => Received::Frame(frame),
        Ok(Next::More) => Received::More,
        Ok(Next::Fault(fault)) => Received::Fault(fault),
        Err(_) => Received::Memory,
    }
}

// Reads once, no more bytes than `reader` asks for, and feeds them to it.
pub(crate) fn hear<L: Link>(
    alloc: Global,
    link: &mut L,
    reader: &mut FrameReader,
    buffer: &mut PieceBuffer,
) -> Received
    requires open { L.closed link.old ≡ false }
    requires wants { 0 < need_of reader.old }
    ensures hears { Hears result reader.old reader.new (L.log link.old) (L.log link.new) (L.left link.new) (L.ended link.new) (L.faults link.old) (L.faults link.new) }
    ensures open { L.closed link.new ≡ false }
    ensures ready { L.blocked link.new ≡ false }
{
    match read_at_most(link, &mut buffer.bytes, reader.need()) {
        LinkRead::Got(n) => take_piece(alloc, reader, &buffer.bytes[..n]),
        LinkRead::NotReady => Received::NotReady,
        LinkRead::End => Received::End,
        LinkRead::Failed => Received::LinkFault,
    }
}
