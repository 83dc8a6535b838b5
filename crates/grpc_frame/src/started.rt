ghost use Rattle.std.specs.Prelude.{◌≡◌, ◌≤◌, length, IfOk, OnOk};
ghost use Rattle.grpc_frame.specs.Started.{missing_in, HasRoom, IsSame, Filled, Starts};

use outside::Memory;
use std::alloc::Global;

/// A message whose flag and length have come.
#[derive(Drop)]
pub(crate) struct Started {
    /// Its length, in bytes.
    pub(crate) len: u32,
    /// What of it has come. Its room grows with that, so a length alone takes no memory.
    pub(crate) bytes: Vec<u8>,
}

/// A message of `len` bytes that begins with `bytes`.
pub(crate) fn start(alloc: Global, len: u32, bytes: &[u8]) -> Result<Started, Memory>
    requires { length bytes.now ≤ len }
    ensures { IfOk result (Starts len bytes.now) }
{
    Ok(Started {
        len,
        bytes: Vec::from_slice(alloc, bytes)?,
    })
}

/// How many bytes of the message have not come.
pub(crate) fn missing(started: &Option<Started>) -> usize
    ensures { result ≡ missing_in started.now }
{
    match started {
        Some(message) => (message.len as usize).saturating_sub(message.bytes.len()),
        None => 0,
    }
}

/// Makes room for `count` more bytes of the message, which stays as it is.
pub(crate) fn make_room(started: &mut Option<Started>, count: usize) -> Result<(), Memory>
    ensures same { IsSame started.old started.new }
    ensures room { OnOk result (HasRoom started.new count) }
{
    if let Some(message) = started {
        message.bytes.reserve(count)?;
    }
    Ok(())
}

/// Adds `bytes` to the message, which has room for them.
pub(crate) fn fill(started: &mut Option<Started>, bytes: &[u8])
    requires { HasRoom started.old (length bytes.now) }
    ensures { Filled started.old started.new bytes.now }
{
    if let Some(message) = started {
        message.bytes.extend_from_slice(bytes).unwrap();
    }
}
