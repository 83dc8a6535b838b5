//! Taking RST_STREAM (RFC 9113 section 6.4).

ghost use Rattle.std.specs.Prelude.{◌≡◌, None};
ghost use Rattle.h2_frames.specs.declared.frame.Frame.TheVariants as frames;
ghost use Rattle.h2_conn.specs.Taking.{early_of, Taking};

use crate::closing::cancel_live;
use crate::conn::Conn;
use crate::flood::count_flood;
use crate::taken::Taken;
use h2_record::Event;

impl Conn {
    // RST_STREAM closes a live stream (RFC 9113 section 6.4).
    pub(crate) fn take_reset(&mut self, stream: u32, code: u32) -> Taken
        requires { early_of self.old (frames.Reset stream code) ≡ None }
        ensures { Taking self.old (frames.Reset stream code) result self.new }
    {
        match count_flood(self.flood) {
            Err(fault) => Taken::Breaks(fault),
            Ok(flood) => {
                self.flood = flood;
                self.has_begun = true;
                if !self.streams.is_live(stream) {
                    return Taken::Passes;
                }
                cancel_live(&mut self.streams, &mut self.answers, &mut self.kept, stream);
                Taken::Tells(Event::Reset { stream, code })
            }
        }
    }
}
