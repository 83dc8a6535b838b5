//! Taking WINDOW_UPDATE (RFC 9113 section 6.9).

ghost use Rattle.std.specs.Prelude.{◌≡◌, IfOk, None};
ghost use Rattle.h2_frames.specs.Sound.{IsFrame, IsStreamId};
ghost use Rattle.h2_frames.specs.declared.frame.Frame.TheVariants as frames;
ghost use Rattle.h2_conn.specs.Taking.{early_of, Taking};

use crate::conn::Conn;
use crate::taken::Taken;
use h2_frames::H2Fault;
use h2_record::Event;
use h2_record::codes::{FLOW_CONTROL_ERROR, PROTOCOL_ERROR};
use outside::Memory;
use std::alloc::Global;

impl Conn {
    // WINDOW_UPDATE, of the connection or of a stream.
    pub(crate) fn serve_window(
        &mut self,
        alloc: Global,
        stream: u32,
        add: u32,
    ) -> Result<Taken, Memory>
        requires early { early_of self.old (frames.Window stream add) ≡ None }
        requires frame { IsFrame (frames.Window stream add) }
        ensures { IfOk result (λ taken. Taking self.old (frames.Window stream add) taken self.new) }
    {
        if stream == 0 {
            return Ok(self.take_connection_window(add));
        }
        self.take_stream_window(alloc, stream, add)
    }

    // WINDOW_UPDATE lets more data go on the connection (RFC 9113 section 6.9).
    pub(crate) fn take_connection_window(&mut self, add: u32) -> Taken
        requires { early_of self.old (frames.Window 0 add) ≡ None }
        ensures { Taking self.old (frames.Window 0 add) result self.new }
    {
        self.has_begun = true;
        match self.window.grant(add) {
            Ok(()) => Taken::Passes,
            Err(_) => Taken::Breaks(H2Fault {
                code: FLOW_CONTROL_ERROR,
                rule: 14,
            }),
        }
    }

    // WINDOW_UPDATE lets more data go on a live stream; on a closed one it is passed over.
    pub(crate) fn take_stream_window(
        &mut self,
        alloc: Global,
        stream: u32,
        add: u32,
    ) -> Result<Taken, Memory>
        requires early { early_of self.old (frames.Window stream add) ≡ None }
        requires stream { IsStreamId stream }
        ensures { IfOk result (λ taken. Taking self.old (frames.Window stream add) taken self.new) }
    {
        self.has_begun = true;
        if !self.streams.is_live(stream) {
            return Ok(Taken::Passes);
        }
        if add == 0 {
            let code = PROTOCOL_ERROR;
            self.refuse(alloc, stream, code)?;
            return Ok(Taken::Tells(Event::Reset { stream, code }));
        }
        match self.streams.grant(stream, add) {
            Ok(()) => Ok(Taken::Passes),
            Err(_) => {
                let code = FLOW_CONTROL_ERROR;
                self.refuse(alloc, stream, code)?;
                Ok(Taken::Tells(Event::Reset { stream, code }))
            }
        }
    }
}
