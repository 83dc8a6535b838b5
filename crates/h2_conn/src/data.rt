//! Taking DATA.

ghost use Rattle.std.specs.Prelude.{◌≡◌, ◌<◌, ◌≤◌, ◌^◌, ◌++◌, IfOk, OnOk, None, Some, false};
ghost use Rattle.std.specs.List.{AllByRecursion};
ghost use Rattle.h2_frames.specs.Sound.{IsStreamId};
ghost use Rattle.h2_frames.specs.Header.{max_frame_size};
ghost use Rattle.h2_frames.specs.declared.frame.Frame.TheVariants as frames;
ghost use Rattle.h2_streams.specs.Book.{state_in};
ghost use Rattle.h2_record.specs.Live.{is_idle_above};
ghost use Rattle.h2_conn.specs.Within.{FitsFrame};
ghost use Rattle.h2_conn.specs.Counting.{payload_credit, owed_if, BodyStep};
ghost use Rattle.h2_conn.specs.Taking.{early_of, Taking};

use crate::conn::Conn;
use crate::flood::count_body;
use crate::payload::pay;
use crate::taken::Taken;
use h2_record::codes::{FLOW_CONTROL_ERROR, STREAM_CLOSED};
use h2_record::{Control, Event, OwedCredit};
use h2_streams::StreamState;
use outside::{Blob, Memory};
use std::alloc::Global;
use std::collections::VecDeque;

// A payload is given back to the connection at once.
fn push_credit(control: &mut VecDeque<Control>, counted: u32) -> Result<(), Memory>
    requires fit { AllByRecursion FitsFrame control.old.items }
    requires small { counted < 2 ^ 31 }
    ensures items { OnOk result (control.new.items ≡ control.old.items ++ payload_credit counted) }
    ensures fit { AllByRecursion FitsFrame control.new.items }
{
    if counted == 0 {
        return Ok(());
    }
    control.push_back(Control::Credit {
        stream: 0,
        add: counted,
    })?;
    Ok(())
}

// What DATA that were taken and don't end their stream give it.
fn owed_if(stream: u32, counted: u32) -> Option<OwedCredit>
    ensures { result ≡ owed_if stream counted }
{
    if counted == 0 {
        None
    } else {
        Some(OwedCredit {
            stream,
            bytes: counted,
        })
    }
}

impl Conn {
    // DATA (RFC 9113 section 6.1).
    pub(crate) fn take_body(
        &mut self,
        alloc: Global,
        stream: u32,
        end: bool,
        bytes: Blob,
        counted: u32,
    ) -> Result<Taken, Memory>
        requires early { early_of self.old (frames.Body stream end bytes counted) ≡ None }
        requires stream { IsStreamId stream }
        requires small { counted ≤ max_frame_size }
        ensures { IfOk result (λ taken. Taking self.old (frames.Body stream end bytes counted) taken self.new) }
    {
        match count_body(self.flood, end, counted) {
            Err(fault) => Ok(Taken::Breaks(fault)),
            Ok(flood) => {
                push_credit(&mut self.control, counted)?;
                self.flood = flood;
                self.has_begun = true;
                let taken = self.serve_body(alloc, stream, end, bytes, counted)?;
                Ok(taken)
            }
        }
    }

    // DATA on a live stream are taken; on another the stream is reset, where the server's reset isn't remembered.
    fn serve_body(
        &mut self,
        alloc: Global,
        stream: u32,
        end: bool,
        bytes: Blob,
        counted: u32,
    ) -> Result<Taken, Memory>
        requires begun { is_idle_above self.old.streams.last stream ≡ false }
        requires stream { IsStreamId stream }
        requires small { counted ≤ max_frame_size }
        ensures { IfOk result (λ taken. BodyStep self.old (frames.Body stream end bytes counted) taken self.new) }
    {
        match self.streams.state_of(stream) {
            StreamState::Live => self.serve_live(alloc, stream, end, bytes, counted),
            StreamState::Ended => {
                let code = STREAM_CLOSED;
                self.refuse(alloc, stream, code)?;
                Ok(Taken::Tells(Event::Reset { stream, code }))
            }
            StreamState::Closed { reset_by_server } => {
                if reset_by_server {
                    return Ok(Taken::Passes);
                }
                self.answers.reset(alloc, stream, STREAM_CLOSED)?;
                Ok(Taken::Passes)
            }
            StreamState::Idle => unreachable!(),
        }
    }

    // DATA on a live stream that the client hasn't ended.
    fn serve_live(
        &mut self,
        alloc: Global,
        stream: u32,
        end: bool,
        bytes: Blob,
        counted: u32,
    ) -> Result<Taken, Memory>
        requires live { state_in self.old.streams stream ≡ StreamState.Live }
        requires stream { IsStreamId stream }
        requires small { counted ≤ max_frame_size }
        ensures { IfOk result (λ taken. BodyStep self.old (frames.Body stream end bytes counted) taken self.new) }
    {
        if !pay(&mut self.streams, stream, end, counted) {
            let code = FLOW_CONTROL_ERROR;
            self.refuse(alloc, stream, code)?;
            return Ok(Taken::Tells(Event::Reset { stream, code }));
        }
        if end {
            self.kept.remove(stream);
            return Ok(Taken::Tells(Event::Body {
                stream,
                bytes,
                ended: end,
            }));
        }
        self.owed = owed_if(stream, counted);
        Ok(Taken::Tells(Event::Body {
            stream,
            bytes,
            ended: end,
        }))
    }
}
