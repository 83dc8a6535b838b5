ghost use Rattle.std.specs.Prelude.{◌≡◌, ◌<◌, ◌≤◌, ◌+◌, ◌-◌, ◌++◌, ◌^◌, length, take, vec_len, IfOk};
ghost use Rattle.call_body.specs.Steps.{FeedsPiece};

use grpc_frame::Deframer;
use outside::{Memory, Source, SourceRead};
use std::alloc::Global;

/// What feeding one piece of the body came to.
#[derive(Clone, Copy)]
pub(crate) enum Fed {
    /// This many bytes were taken from the source.
    Bytes(usize),
    /// No byte is left.
    End,
    /// The source met a fault.
    Outside,
    /// Want of memory.
    Memory,
}

/// Room for so many bytes.
pub(crate) fn buffer(alloc: Global, len: usize) -> Result<Vec<u8>, Memory>
    ensures { IfOk result (λ bytes. vec_len bytes ≡ len) }
{
    Ok(vec![in alloc; 0u8; len]?)
}

/// Takes the next piece from the source, at most `room` bytes and one more, and feeds all of it but
/// what lies behind `room`.
pub(crate) fn feed_piece<I: Source>(
    alloc: Global,
    input: &mut I,
    buffer: &mut [u8],
    deframer: &mut Deframer,
    room: usize,
) -> Fed
    requires some { 0 < length buffer.old }
    requires small { room < 2 ^ 63 }
    ensures limit { deframer.new.limit ≡ deframer.old.limit }
    ensures feeds { FeedsPiece room (I.left input.old) (I.left input.new) deframer.old.bytes deframer.new.bytes
        (I.faults input.old) (I.faults input.new) result }
{
    let want = buffer.len().min(room + 1);
    match input.read(&mut buffer[..want]) {
        SourceRead::Failed => Fed::Outside,
        SourceRead::End => Fed::End,
        SourceRead::Got(n) => match deframer.feed(alloc, &buffer[..n.min(room)]) {
            Ok(()) => Fed::Bytes(n),
            Err(Memory) => Fed::Memory,
        },
    }
}
