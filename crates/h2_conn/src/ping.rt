//! Taking PING (RFC 9113 section 6.7).

ghost use Rattle.std.specs.Prelude.{◌≡◌, IfOk, false, None};
ghost use Rattle.h2_frames.specs.declared.frame.Frame.TheVariants as frames;
ghost use Rattle.h2_conn.specs.Taking.{early_of, Taking};

use crate::conn::Conn;
use crate::flood::count_flood;
use crate::taken::Taken;
use h2_frames::Frame;
use h2_record::Control;
use outside::Memory;

impl Conn {
    // PING; with ACK it is passed over.
    pub(crate) fn serve_ping(&mut self, ack: bool, octets: [u8; 8]) -> Result<Taken, Memory>
        requires { early_of self.old (frames.Ping ack octets) ≡ None }
        ensures { IfOk result (λ taken. Taking self.old (frames.Ping ack octets) taken self.new) }
    {
        if ack {
            return Ok(self.pass(&Frame::Ping { ack, octets }));
        }
        self.take_ping(octets)
    }

    // PING without ACK is answered with its octets (RFC 9113 section 6.7).
    pub(crate) fn take_ping(&mut self, octets: [u8; 8]) -> Result<Taken, Memory>
        requires { early_of self.old (frames.Ping false octets) ≡ None }
        ensures { IfOk result (λ taken. Taking self.old (frames.Ping false octets) taken self.new) }
    {
        match count_flood(self.flood) {
            Err(fault) => Ok(Taken::Breaks(fault)),
            Ok(flood) => {
                self.control.push_back(Control::Pong { octets })?;
                self.flood = flood;
                self.has_begun = true;
                Ok(Taken::Passes)
            }
        }
    }
}
