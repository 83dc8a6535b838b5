//! The count of frames that ask for nothing.

ghost use Rattle.std.specs.Prelude.{◌≡◌, ◌≤◌, ◌+◌, nat_le, if◌then◌else◌, None, Some, true, ◌==◌, ◌&&◌, not};
ghost use Rattle.h2_record.specs.Faults.{is_flood, most_flood};
ghost use Rattle.h2_conn.specs.Flood.{Counts};

use h2_frames::{Frame, H2Fault};
use h2_record::codes::ENHANCE_YOUR_CALM;
use h2_record::limits::MOST_FLOOD;

// Whether the frame asks for nothing.
pub(crate) fn is_flood(frame: &Frame) -> bool
    ensures { result ≡ is_flood frame.now }
{
    match frame {
        Frame::Body { end, counted, .. } => *counted == 0 && !*end,
        Frame::Settings { ack, .. } => !*ack,
        Frame::Ping { ack, .. } => !*ack,
        Frame::Priority { .. } | Frame::Reset { .. } | Frame::Unknown { .. } => true,
        _ => false,
    }
}

// The count with one such frame more, or that it is one too many.
pub(crate) fn count_flood(flood: u32) -> Result<u32, H2Fault>
    ensures { Counts true flood result }
{
    if MOST_FLOOD <= flood {
        return Err(H2Fault {
            code: ENHANCE_YOUR_CALM,
            rule: 17,
        });
    }
    Ok(flood + 1)
}

// The count with the frame.
pub(crate) fn count_frame(flood: u32, frame: &Frame) -> Result<u32, H2Fault>
    requires { flood ≤ most_flood }
    ensures { Counts (is_flood frame.now) flood result }
{
    if is_flood(frame) {
        count_flood(flood)
    } else {
        Ok(flood)
    }
}

// The count with DATA of so many bytes.
pub(crate) fn count_body(flood: u32, end: bool, counted: u32) -> Result<u32, H2Fault>
    requires { flood ≤ most_flood }
    ensures { Counts (counted == 0 && not end) flood result }
{
    if counted == 0 && !end {
        count_flood(flood)
    } else {
        Ok(flood)
    }
}
