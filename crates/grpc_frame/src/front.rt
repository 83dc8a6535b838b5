ghost use Rattle.std.specs.Prelude.{◌≡◌, ◌≢◌, ◌↔◌, ℕ, List, [], IsTrue};
ghost use Rattle.grpc_frame.specs.Part.{part_of};
ghost use Rattle.grpc_frame.specs.Messages.{Messages, IsInside};
ghost use Rattle.grpc_frame.specs.Front.{front_part, IsSpelled};

use crate::frame::PREFIX_LEN;
use crate::part::Part;

/// What bytes begin with: a `Part` whose message still lies in them.
#[derive(Clone, Copy)]
pub(crate) enum Front {
    /// A message of `len` bytes.
    Whole { len: usize },
    /// The beginning of a message of `len` bytes.
    Unfinished { len: u32 },
    /// Less than a flag and a length.
    More,
    Compressed { flag: u8 },
    TooLong { len: u32 },
}

/// What `bytes` begin with.
pub(crate) fn front_of(limit: u32, bytes: &[u8]) -> Front
    ensures part { front_part bytes.now result ≡ part_of limit bytes.now }
    ensures spelled { IsSpelled limit bytes.now result }
{
    if bytes.is_empty() {
        return Front::More;
    }
    let flag = bytes[0];
    if flag != 0 {
        return Front::Compressed { flag };
    }
    if bytes.len() < PREFIX_LEN {
        return Front::More;
    }
    let len = u32::from_be_bytes([bytes[1], bytes[2], bytes[3], bytes[4]]);
    if len > limit {
        return Front::TooLong { len };
    }
    if bytes.len() - PREFIX_LEN < len as usize {
        return Front::Unfinished { len };
    }
    Front::Whole { len: len as usize }
}

/// The bytes behind the whole messages.
fn rest_of(limit: u32, bytes: &[u8]) -> &[u8]
    ensures { (messages : List (List ℕ)) × Messages limit bytes.now messages result.now }
{
    let mut rest = bytes;
    while let Front::Whole { len } = front_of(limit, rest) {
        rest = &rest[PREFIX_LEN + len..];
    }
    rest
}

/// Whether bytes of a message that is not whole stand behind the whole messages.
pub(crate) fn ends_inside(limit: u32, bytes: &[u8]) -> bool
    ensures { IsTrue result ↔ IsInside limit bytes.now }
{
    is_unfinished(limit, rest_of(limit, bytes))
}

/// Whether `bytes` are the beginning of a message of which bytes are missing.
fn is_unfinished(limit: u32, bytes: &[u8]) -> bool
    ensures { IsTrue result ↔ (bytes.now ≢ []) × (part_of limit bytes.now ≡ Part.More) }
{
    !bytes.is_empty()
        && matches!(
            front_of(limit, bytes),
            Front::More | Front::Unfinished { .. }
        )
}
