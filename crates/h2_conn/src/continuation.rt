//! Taking CONTINUATION.

ghost use Rattle.std.specs.Prelude.{◌≡◌, ◌≤◌, ◌||◌, nat_lt, length, IfOk};
ghost use Rattle.h2_frames.specs.Sound.{IsStreamId};
ghost use Rattle.h2_frames.specs.Header.{max_frame_size};
ghost use Rattle.h2_frames.specs.declared.frame.Frame.TheVariants as frames;
ghost use Rattle.h2_record.specs.Blocks.{continued};
ghost use Rattle.h2_record.specs.Rules.{is_large};
ghost use Rattle.h2_conn.specs.Counting.{ContinuationStep};
ghost use Rattle.h2_conn.specs.Taking.{early_of, Taking};

use crate::conn::Conn;
use crate::taken::Taken;
use crate::whole_block::{BlockTold, read_block};
use h2_frames::H2Fault;
use h2_record::codes::{COMPRESSION_ERROR, ENHANCE_YOUR_CALM, PROTOCOL_ERROR};
use h2_record::limits::{MOST_BLOCK_BYTES, MOST_CONTINUATIONS};
use h2_record::{Event, OpenBlock};
use outside::{Blob, Memory};
use std::alloc::Global;

/// A header block of too many bytes or frames (RFC 9113 section 10.5.1).
const TOO_LARGE: H2Fault = H2Fault {
    code: ENHANCE_YOUR_CALM,
    rule: 16,
};

// The block with a fragment more.
fn continued(block: OpenBlock, fragment: &[u8]) -> Result<OpenBlock, Memory>
    requires { block.continuations ≤ 64 }
    ensures { IfOk result (λ longer. longer ≡ continued fragment.now block) }
{
    let mut bytes = block.bytes.into_vec();
    bytes.extend_from_slice(fragment)?;
    Ok(OpenBlock {
        stream: block.stream,
        ended: block.ended,
        is_late: block.is_late,
        bytes: Blob::from_vec(bytes),
        continuations: block.continuations + 1,
    })
}

// Whether the block is above its limits.
fn is_large(block: &OpenBlock) -> bool
    ensures { result ≡ is_large block.now }
{
    MOST_BLOCK_BYTES < block.bytes.len() || MOST_CONTINUATIONS < block.continuations
}

impl Conn {
    // CONTINUATION (RFC 9113 section 6.10).
    pub(crate) fn take_continuation(
        &mut self,
        alloc: Global,
        stream: u32,
        whole: bool,
        fragment: Blob,
    ) -> Result<Taken, Memory>
        requires early { early_of self.old (frames.Continuation stream whole fragment) ≡ None }
        requires stream { IsStreamId stream }
        ensures { IfOk result (λ taken. Taking self.old (frames.Continuation stream whole fragment) taken self.new) }
    {
        let Some(open) = self.block.take() else {
            unreachable!()
        };
        let block = continued(open, fragment.bytes())?;
        self.has_begun = true;
        if !whole {
            if is_large(&block) {
                return Ok(Taken::Breaks(TOO_LARGE));
            }
            self.block = Some(block);
            return Ok(Taken::Passes);
        }
        let Some(told) = read_block(alloc, &mut self.decoder, &block)? else {
            return Ok(Taken::Breaks(H2Fault {
                code: COMPRESSION_ERROR,
                rule: 15,
            }));
        };
        if is_large(&block) {
            return Ok(Taken::Breaks(TOO_LARGE));
        }
        let taken = self.serve_block(alloc, stream, block.is_late, told)?;
        Ok(taken)
    }

    // A block that CONTINUATION makes whole, on a stream that lives or not.
    fn serve_block(
        &mut self,
        alloc: Global,
        stream: u32,
        is_late: bool,
        told: BlockTold,
    ) -> Result<Taken, Memory>
        requires { IsStreamId stream }
        ensures { IfOk result (λ taken. ContinuationStep self.old stream is_late told taken self.new) }
    {
        if !self.streams.is_live(stream) {
            return Ok(Taken::Passes);
        }
        match told {
            BlockTold::Tells(event) => Ok(Taken::Tells(event)),
            BlockTold::Malformed => {
                let code = PROTOCOL_ERROR;
                self.refuse(alloc, stream, code)?;
                if is_late {
                    return Ok(Taken::Tells(Event::Reset { stream, code }));
                }
                Ok(Taken::Passes)
            }
        }
    }
}
