ghost use Rattle.std.specs.Prelude.{◌≡◌};

use std::alloc::{AllocError, AllocFailed};
use thiserror::Error;

/// Why a block gives no fields.
#[derive(Clone, Copy, Debug, PartialEq, Eq, Error)]
pub enum BlockFault {
    /// An allocation was refused. Every later block is answered so too.
    #[error("out of memory")]
    Memory,
    /// The block isn't in the grammar of HPACK, or an earlier one wasn't.
    #[error("a block that isn't in the grammar of HPACK")]
    BadBlock,
    /// The block is good, and the size of its list of fields, which this carries, is above 16,384.
    #[error("a list of fields of size {size}")]
    TooLarge { size: u64 },
}

impl From<AllocError> for BlockFault {
    ghost use Rattle.hpack_blocks.specs.declared.faults.BlockFault.TheVariants.{Memory};

    ghost from_gives = { λ _ e. e ≡ Memory };

    fn from(_refused: AllocError) -> BlockFault {
        BlockFault::Memory
    }
}

impl<T: Drop> From<AllocFailed<T>> for BlockFault {
    ghost use Rattle.hpack_blocks.specs.declared.faults.BlockFault.TheVariants.{Memory};

    ghost from_gives = { λ _ e. e ≡ Memory };

    fn from(_refused: AllocFailed<T>) -> BlockFault {
        BlockFault::Memory
    }
}

impl From<outside::Memory> for BlockFault {
    ghost use Rattle.hpack_blocks.specs.declared.faults.BlockFault.TheVariants.{Memory};

    ghost from_gives = { λ _ e. e ≡ Memory };

    fn from(_refused: outside::Memory) -> BlockFault {
        BlockFault::Memory
    }
}
