//! The rules that a frame is tested by before it changes anything.

ghost use Rattle.std.specs.Prelude.{◌≡◌};
ghost use Rattle.h2_record.specs.Rules.{broken, code_if, is_settings, is_outside, preface_code, pair_code, pairs_code, settings_code, even_code, idle_code, zero_code};
ghost use Rattle.h2_record.specs.Live.{is_idle_above};
ghost use Rattle.h2_conn.specs.Taking.{early_of};

use crate::conn::Conn;
use h2_frames::{Frame, H2Fault, Pair};
use h2_record::OpenBlock;
use h2_record::codes::{FLOW_CONTROL_ERROR, PROTOCOL_ERROR};
use h2_record::limits::GREATEST_WINDOW;

/// SETTINGS_ENABLE_PUSH, SETTINGS_INITIAL_WINDOW_SIZE and SETTINGS_MAX_FRAME_SIZE (RFC 9113 section 6.5.2).
const ENABLE_PUSH: u16 = 2;

pub(crate) const INITIAL_WINDOW_SIZE: u16 = 4;

const MAX_FRAME_SIZE: u16 = 5;

// The code, where the rule is broken.
pub(crate) fn code_if(holds: bool, code: u32) -> Option<u32>
    ensures { result ≡ code_if holds code }
{
    if holds { Some(code) } else { None }
}

fn is_settings(frame: &Frame) -> bool
    ensures { result ≡ is_settings frame.now }
{
    match frame {
        Frame::Settings { ack, .. } => !*ack,
        _ => false,
    }
}

fn preface_code(begun: bool, frame: &Frame) -> Option<u32>
    ensures { result ≡ preface_code begun frame.now }
{
    code_if(!begun && !is_settings(frame), PROTOCOL_ERROR)
}

fn is_outside(block: &Option<OpenBlock>, frame: &Frame) -> bool
    ensures { result ≡ is_outside block.now frame.now }
{
    match block {
        None => matches!(frame, Frame::Continuation { .. }),
        Some(block) => match frame {
            Frame::Continuation { stream, .. } => block.stream != *stream,
            _ => true,
        },
    }
}

fn pair_code(pair: &Pair) -> Option<u32>
    ensures { result ≡ pair_code pair.now }
{
    if pair.id == ENABLE_PUSH {
        code_if(1 < pair.value, PROTOCOL_ERROR)
    } else if pair.id == INITIAL_WINDOW_SIZE {
        code_if(GREATEST_WINDOW < pair.value, FLOW_CONTROL_ERROR)
    } else if pair.id == MAX_FRAME_SIZE {
        code_if(
            pair.value < 16_384 || 16_777_215 < pair.value,
            PROTOCOL_ERROR,
        )
    } else {
        None
    }
}

fn pairs_code(pairs: &[Pair]) -> Option<u32>
    ensures { result ≡ pairs_code pairs.now }
{
    for pair in pairs {
        if let Some(code) = pair_code(pair) {
            return Some(code);
        }
    }
    None
}

fn settings_code(frame: &Frame) -> Option<u32>
    ensures { result ≡ settings_code frame.now }
{
    match frame {
        Frame::Settings { ack: false, pairs } => pairs_code(pairs.items()),
        _ => None,
    }
}

fn even_code(frame: &Frame) -> Option<u32>
    ensures { result ≡ even_code frame.now }
{
    match frame {
        Frame::Headers { stream, .. } => code_if(*stream % 2 == 0, PROTOCOL_ERROR),
        _ => None,
    }
}

// Whether an id is even or above the last that was begun.
fn is_idle_above(last: u32, id: u32) -> bool
    ensures { result ≡ is_idle_above last id }
{
    id % 2 == 0 || last < id
}

fn idle_code(last: u32, frame: &Frame) -> Option<u32>
    ensures { result ≡ idle_code last frame.now }
{
    match frame {
        Frame::Body { stream, .. } => code_if(is_idle_above(last, *stream), PROTOCOL_ERROR),
        Frame::Reset { stream, .. } => code_if(is_idle_above(last, *stream), PROTOCOL_ERROR),
        Frame::Window { stream, .. } => {
            code_if(*stream != 0 && is_idle_above(last, *stream), PROTOCOL_ERROR)
        }
        _ => None,
    }
}

fn zero_code(frame: &Frame) -> Option<u32>
    ensures { result ≡ zero_code frame.now }
{
    match frame {
        Frame::Window { stream, add } => code_if(*stream == 0 && *add == 0, PROTOCOL_ERROR),
        _ => None,
    }
}

fn broken(rule: u8, code: Option<u32>) -> Option<H2Fault>
    ensures { result ≡ broken rule code }
{
    match code {
        Some(code) => Some(H2Fault { code, rule }),
        None => None,
    }
}

impl Conn {
    // The least of the early rules that the frame breaks.
    #[tactic(auto, unfolding(h2_record::specs::Early::early_fault))]
    pub(crate) fn early_fault(&self, frame: &Frame) -> Option<H2Fault>
        ensures { result ≡ early_of self.now frame.now }
    {
        let last = self.streams.last();
        broken(7, preface_code(self.has_begun, frame))
            .or(broken(8, code_if(is_outside(&self.block, frame), PROTOCOL_ERROR)))
            .or(broken(9, settings_code(frame)))
            .or(broken(11, even_code(frame)))
            .or(broken(12, idle_code(last, frame)))
            .or(broken(13, zero_code(frame)))
    }
}
