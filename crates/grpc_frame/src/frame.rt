ghost use Rattle.std.specs.Prelude.{◌≡◌, ◌<◌, ◌^◌, length, IfOk};
ghost use Rattle.grpc_frame.specs.Frame.{frame};

use outside::{Blob, Memory};
use std::alloc::Global;

/// The bytes before a message: its flag and its length.
pub(crate) const PREFIX_LEN: usize = 5;

/// The message as it stands in a body: the flag 0, its length and its bytes.
///
/// It is shorter than 2^32 bytes.
#[tactic(auto, unfolding(crate::specs::Frame::frame, crate::specs::Frame::prefix_of))]
pub fn frame_message(alloc: Global, message: &[u8]) -> Result<Blob, Memory>
    requires { length message.now < 2 ^ 32 }
    ensures { IfOk result (λ bytes. bytes ≡ frame message.now) }
{
    let mut bytes = Vec::with_capacity(alloc, PREFIX_LEN + message.len())?;
    bytes.push(0)?;
    bytes.extend_from_slice(&(message.len() as u32).to_be_bytes())?;
    bytes.extend_from_slice(message)?;
    Ok(Blob::from_vec(bytes))
}
