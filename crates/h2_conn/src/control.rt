//! The control frames that wait.

ghost use Rattle.std.specs.Prelude.{◌≡◌, ◌++◌, IfOk, OnOk, OnErr};
ghost use Rattle.h2_frames.specs.Sound.{IsInRange};
ghost use Rattle.h2_frames.specs.Spelling.{spelling, IsWritable, frame_len};
ghost use Rattle.h2_record.specs.Control.{own_settings, frame_of};
ghost use Rattle.h2_conn.specs.Within.{FitsFrame};

use h2_frames::{Frame, Pair, Pairs, write_frame};
use h2_record::Control;
use h2_record::limits::{MOST_LIST_SIZE, MOST_STREAMS};
use outside::Memory;
use std::alloc::Global;

/// SETTINGS_MAX_CONCURRENT_STREAMS, and how many streams may live at once (RFC 9113 section 6.5.2).
const MAX_CONCURRENT_STREAMS: Pair = Pair {
    id: 3,
    value: MOST_STREAMS,
};

/// SETTINGS_MAX_HEADER_LIST_SIZE, and its size.
const MAX_HEADER_LIST_SIZE: Pair = Pair {
    id: 6,
    value: MOST_LIST_SIZE,
};

// The server's own settings.
fn own_settings(alloc: Global) -> Result<Pairs, Memory>
    ensures { IfOk result (λ pairs. pairs ≡ own_settings) }
{
    let mut pairs = Vec::with_capacity(alloc, 2)?;
    pairs.push(MAX_CONCURRENT_STREAMS)?;
    pairs.push(MAX_HEADER_LIST_SIZE)?;
    Ok(Pairs::from_vec(pairs))
}

// The frame that it is.
fn frame_of(alloc: Global, control: Control) -> Result<Frame, Memory>
    ensures { IfOk result (λ frame. frame ≡ frame_of control) }
{
    Ok(match control {
        Control::Settings => Frame::Settings {
            ack: false,
            pairs: own_settings(alloc)?,
        },
        Control::SettingsAck => Frame::Settings {
            ack: true,
            pairs: Pairs::from_vec(Vec::new(alloc)),
        },
        Control::Pong { octets } => Frame::Ping { ack: true, octets },
        Control::Goaway { last, code } => Frame::Goaway { last, code },
        Control::Credit { stream, add } => Frame::Window { stream, add },
    })
}

/// How many bytes its frame has.
#[tactic(auto, unfolding(h2_frames::specs::Spelling::spelling))]
pub(crate) fn len_of(control: Control) -> u32
    ensures { result ≡ frame_len (frame_of control) }
{
    match control {
        Control::Settings => 21,
        Control::SettingsAck => 9,
        Control::Pong { .. } | Control::Goaway { .. } => 17,
        Control::Credit { .. } => 13,
    }
}

/// Appends its frame. Where memory is refused, `out` is as it was.
pub(crate) fn put_control(alloc: Global, out: &mut Vec<u8>, control: Control) -> Result<(), Memory>
    requires { FitsFrame control }
    ensures ok { OnOk result (out.new.items ≡ out.old.items ++ spelling (frame_of control)) }
    ensures err { OnErr result (out.new.items ≡ out.old.items) }
    ensures writable { IsWritable (frame_of control) }
    ensures in_range { IsInRange (frame_of control) }
{
    let frame = frame_of(alloc, control)?;
    write_frame(out, &frame)
}
