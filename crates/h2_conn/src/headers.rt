//! Taking HEADERS.

ghost use Rattle.std.specs.Prelude.{◌≡◌, ◌%◌, ◌==◌, ◌≤◌, length, IfOk, OnOk, false, None};
ghost use Rattle.h2_frames.specs.Sound.{IsStreamId};
ghost use Rattle.h2_frames.specs.Header.{max_frame_size};
ghost use Rattle.h2_frames.specs.declared.frame.Frame.TheVariants as frames;
ghost use Rattle.h2_streams.specs.declared.stream.StreamState.TheVariants as is;
ghost use Rattle.h2_streams.specs.Book.{state_in};
ghost use Rattle.h2_conn.specs.Counting.{RefusesLate, HeadersStep};
ghost use Rattle.h2_conn.specs.Taking.{early_of, Taking};

use crate::conn::Conn;
use crate::taken::Taken;
use crate::trailing::{begin, trail};
use crate::whole_block::{BlockTold, read_block};
use h2_frames::H2Fault;
use h2_record::codes::{COMPRESSION_ERROR, PROTOCOL_ERROR, REFUSED_STREAM, STREAM_CLOSED};
use h2_record::{Event, OpenBlock};
use h2_streams::StreamState;
use outside::{Blob, Memory};
use std::alloc::Global;

impl Conn {
    // HEADERS (RFC 9113 section 6.2).
    pub(crate) fn take_headers(
        &mut self,
        alloc: Global,
        stream: u32,
        ended: bool,
        whole: bool,
        fragment: Blob,
    ) -> Result<Taken, Memory>
        requires early { early_of self.old (frames.Headers stream ended whole fragment) ≡ None }
        requires stream { IsStreamId stream }
        requires small { length fragment ≤ max_frame_size }
        ensures { IfOk result (λ taken. Taking self.old (frames.Headers stream ended whole fragment) taken self.new) }
    {
        let is_new = self.streams.last() < stream;
        let block = OpenBlock {
            stream,
            ended,
            is_late: !is_new,
            bytes: fragment,
            continuations: 0,
        };
        self.has_begun = true;
        if !whole {
            self.block = Some(block);
            let taken = self.serve_headers(alloc, stream, ended, None)?;
            return Ok(taken);
        }
        self.block = None;
        let Some(told) = read_block(alloc, &mut self.decoder, &block)? else {
            return Ok(Taken::Breaks(H2Fault {
                code: COMPRESSION_ERROR,
                rule: 15,
            }));
        };
        let taken = self.serve_headers(alloc, stream, ended, Some(told))?;
        Ok(taken)
    }

    // HEADERS on an id, by its state.
    fn serve_headers(
        &mut self,
        alloc: Global,
        stream: u32,
        ended: bool,
        told: Option<BlockTold>,
    ) -> Result<Taken, Memory>
        requires odd { (stream % 2 == 0) ≡ false }
        requires stream { IsStreamId stream }
        ensures { IfOk result (λ taken. HeadersStep self.old stream ended told taken self.new) }
    {
        match self.streams.state_of(stream) {
            StreamState::Idle => self.open(alloc, stream, ended, told),
            StreamState::Live => self.trail(alloc, stream, ended, told),
            StreamState::Ended => {
                let code = STREAM_CLOSED;
                self.refuse(alloc, stream, code)?;
                Ok(Taken::Tells(Event::Reset { stream, code }))
            }
            StreamState::Closed { reset_by_server } => {
                if reset_by_server {
                    return Ok(Taken::Passes);
                }
                self.refuse_late(alloc, stream)?;
                Ok(Taken::Passes)
            }
        }
    }

    // The server resets a stream that was closed before.
    fn refuse_late(&mut self, alloc: Global, stream: u32) -> Result<(), Memory>
        requires { IsStreamId stream }
        ensures { OnOk result (RefusesLate self.old stream self.new) }
    {
        self.answers.reset(alloc, stream, STREAM_CLOSED)?;
        Ok(())
    }

    // HEADERS on a new id open a stream, where fewer than 100 live.
    fn open(
        &mut self,
        alloc: Global,
        stream: u32,
        ended: bool,
        told: Option<BlockTold>,
    ) -> Result<Taken, Memory>
        requires idle { state_in self.old.streams stream ≡ is.Idle }
        requires odd { (stream % 2 == 0) ≡ false }
        requires stream { IsStreamId stream }
        ensures { IfOk result (λ taken. HeadersStep self.old stream ended told taken self.new) }
    {
        let opens = begin(alloc, &mut self.streams, stream, self.initial, ended)?;
        if !opens {
            self.answers.reset(alloc, stream, REFUSED_STREAM)?;
            return Ok(Taken::Passes);
        }
        match told {
            None => Ok(Taken::Passes),
            Some(BlockTold::Tells(event)) => Ok(Taken::Tells(event)),
            Some(BlockTold::Malformed) => {
                self.refuse(alloc, stream, PROTOCOL_ERROR)?;
                Ok(Taken::Passes)
            }
        }
    }

    // HEADERS on a live stream that the client hadn't ended are its trailers.
    fn trail(
        &mut self,
        alloc: Global,
        stream: u32,
        ended: bool,
        told: Option<BlockTold>,
    ) -> Result<Taken, Memory>
        requires live { state_in self.old.streams stream ≡ is.Live }
        requires stream { IsStreamId stream }
        ensures { IfOk result (λ taken. HeadersStep self.old stream ended told taken self.new) }
    {
        match told {
            Some(BlockTold::Malformed) => {
                let code = PROTOCOL_ERROR;
                self.refuse(alloc, stream, code)?;
                Ok(Taken::Tells(Event::Reset { stream, code }))
            }
            None => {
                trail(&mut self.streams, &mut self.kept, stream, ended);
                Ok(Taken::Passes)
            }
            Some(BlockTold::Tells(event)) => {
                trail(&mut self.streams, &mut self.kept, stream, ended);
                Ok(Taken::Tells(event))
            }
        }
    }
}
