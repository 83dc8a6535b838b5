//! What a client sends before its first frame.

ghost use Rattle.std.specs.Prelude.{◌≡◌};
ghost use Rattle.h2_frames.specs.Reading.{preface_next};

use crate::fault::H2Fault;
use crate::payload::PROTOCOL_ERROR;
use crate::reader::Next;

/// What a client sends before its first frame (RFC 9113 section 3.4).
pub const PREFACE: &[u8; 24] = b"PRI * HTTP/2.0\r\n\r\nSM\r\n\r\n";

/// The answer before the preface is whole: a byte that isn't the preface's is a fault.
#[tactic(auto, unfolding(crate::specs::Reading::preface))]
pub fn preface_next(front: &[u8]) -> Next
    ensures { result ≡ preface_next front.now }
{
    if PREFACE.starts_with(front) {
        Next::More
    } else {
        Next::Fault(H2Fault {
            code: PROTOCOL_ERROR,
            rule: 1,
        })
    }
}
