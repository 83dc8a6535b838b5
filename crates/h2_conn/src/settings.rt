//! Taking SETTINGS (RFC 9113 section 6.5).

ghost use Rattle.std.specs.Prelude.{◌≡◌, IfOk, false, None};
ghost use Rattle.h2_frames.specs.declared.frame.Frame.TheVariants as frames;
ghost use Rattle.h2_conn.specs.Taking.{early_of, Taking};

use crate::conn::Conn;
use crate::flood::count_flood;
use crate::shift::shift;
use crate::taken::Taken;
use h2_frames::{Frame, H2Fault, Pair, Pairs};
use h2_record::Control;
use h2_record::codes::FLOW_CONTROL_ERROR;
use outside::Memory;

impl Conn {
    // SETTINGS; with ACK they are passed over.
    pub(crate) fn serve_settings(&mut self, ack: bool, pairs: Pairs) -> Result<Taken, Memory>
        requires { early_of self.old (frames.Settings ack pairs) ≡ None }
        ensures { IfOk result (λ taken. Taking self.old (frames.Settings ack pairs) taken self.new) }
    {
        if ack {
            return Ok(self.pass(&Frame::Settings { ack, pairs }));
        }
        self.take_settings(pairs.items())
    }

    // SETTINGS without ACK are applied and answered (RFC 9113 sections 6.5.3 and 6.9.2).
    pub(crate) fn take_settings(&mut self, pairs: &[Pair]) -> Result<Taken, Memory>
        requires { early_of self.old (frames.Settings false pairs.now) ≡ None }
        ensures { IfOk result (λ taken. Taking self.old (frames.Settings false pairs.now) taken self.new) }
    {
        let Some(initial) = shift(&mut self.streams, self.initial, pairs) else {
            return Ok(Taken::Breaks(H2Fault {
                code: FLOW_CONTROL_ERROR,
                rule: 10,
            }));
        };
        self.initial = initial;
        match count_flood(self.flood) {
            Err(fault) => Ok(Taken::Breaks(fault)),
            Ok(flood) => {
                self.control.push_back(Control::SettingsAck)?;
                self.flood = flood;
                self.has_begun = true;
                Ok(Taken::Passes)
            }
        }
    }
}
