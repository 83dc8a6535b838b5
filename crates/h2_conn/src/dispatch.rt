//! A frame, by its kind.

ghost use Rattle.std.specs.Prelude.{◌≡◌, None, IfOk};
ghost use Rattle.h2_frames.specs.Sound.{IsFrame};
ghost use Rattle.h2_conn.specs.Taking.{early_of, Taking};

use crate::conn::Conn;
use crate::taken::Taken;
use h2_frames::Frame;
use outside::Memory;
use std::alloc::Global;

impl Conn {
    // A frame that breaks no early rule.
    pub(crate) fn serve(&mut self, alloc: Global, frame: Frame) -> Result<Taken, Memory>
        requires early { early_of self.old frame ≡ None }
        requires frame { IsFrame frame }
        ensures { IfOk result (λ taken. Taking self.old frame taken self.new) }
    {
        match frame {
            Frame::Body {
                stream,
                end,
                bytes,
                counted,
            } => self.take_body(alloc, stream, end, bytes, counted),
            Frame::Headers {
                stream,
                end,
                whole,
                block,
            } => self.take_headers(alloc, stream, end, whole, block),
            Frame::Priority { stream } => Ok(self.pass(&Frame::Priority { stream })),
            Frame::Reset { stream, code } => Ok(self.take_reset(stream, code)),
            Frame::Settings { ack, pairs } => self.serve_settings(ack, pairs),
            Frame::Push { stream: _ } => unreachable!(),
            Frame::Ping { ack, octets } => self.serve_ping(ack, octets),
            Frame::Goaway { last, code } => Ok(self.pass(&Frame::Goaway { last, code })),
            Frame::Window { stream, add } => self.serve_window(alloc, stream, add),
            Frame::Continuation {
                stream,
                whole,
                block,
            } => self.take_continuation(alloc, stream, whole, block),
            Frame::Unknown { kind, stream } => Ok(self.pass(&Frame::Unknown { kind, stream })),
        }
    }
}
