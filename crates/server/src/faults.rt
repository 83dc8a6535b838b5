//! Why the tables were not reported.

use outside::Memory;
use thiserror::Error;

/// Why [`crate::serve`] or [`crate::report`] gave no engines.
#[derive(Clone, Copy, Debug, PartialEq, Eq, Error)]
pub enum ServeFault {
    /// The door or the sink met a fault, and its count of faults rose.
    #[error("a fault outside")]
    Outside,
    /// Want of memory.
    #[error("out of memory")]
    Memory,
}

impl From<Memory> for ServeFault {
    ghost use Rattle.std.specs.Prelude.{◌≡◌};
    ghost use Rattle.server.specs.declared.faults.ServeFault.TheVariants as fault;

    ghost from_gives = { λ _ e. e ≡ fault.Memory };

    fn from(_want: Memory) -> ServeFault {
        ServeFault::Memory
    }
}
