//! Why a text gives no name.

use outside::Memory;
use std::alloc::AllocError;
use thiserror::Error;

/// Why a text gave no name.
#[derive(Clone, Copy, Debug, PartialEq, Eq, Error)]
pub enum NameFault {
    /// An allocation was refused.
    #[error("out of memory")]
    Memory,
    /// The text isn't in the form of the name.
    #[error("bad resource name")]
    BadName,
}

impl From<Memory> for NameFault {
    ghost use Rattle.std.specs.Prelude.{◌≡◌};
    ghost use Rattle.resource_names.specs.declared.faults.NameFault.TheVariants as fault;

    ghost from_gives = { λ _ e. e ≡ fault.Memory };

    fn from(_want: Memory) -> NameFault {
        NameFault::Memory
    }
}

impl From<AllocError> for NameFault {
    ghost use Rattle.std.specs.Prelude.{◌≡◌};
    ghost use Rattle.resource_names.specs.declared.faults.NameFault.TheVariants as fault;

    ghost from_gives = { λ _ e. e ≡ fault.Memory };

    fn from(_refused: AllocError) -> NameFault {
        NameFault::Memory
    }
}
