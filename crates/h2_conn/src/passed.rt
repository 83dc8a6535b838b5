//! Frames that are passed over: PRIORITY, GOAWAY, unknown types, and what has ACK (RFC 9113 sections 5.5, 6.3 and 6.8).

ghost use Rattle.std.specs.Prelude.{◌≡◌, None};
ghost use Rattle.h2_conn.specs.Taking.{early_of, IsPassed, Taking};

use crate::conn::Conn;
use crate::flood::count_frame;
use crate::taken::Taken;
use h2_frames::Frame;

impl Conn {
    // A frame that the server passes over, but for the count of those that ask for nothing.
    pub(crate) fn pass(&mut self, frame: &Frame) -> Taken
        requires early { early_of self.old frame.now ≡ None }
        requires passed { IsPassed frame.now }
        ensures { Taking self.old frame.now result self.new }
    {
        match count_frame(self.flood, frame) {
            Err(fault) => Taken::Breaks(fault),
            Ok(flood) => {
                self.flood = flood;
                self.has_begun = true;
                Taken::Passes
            }
        }
    }
}
