ghost use Rattle.std.specs.Prelude.{◌≡◌};

use std::alloc::{AllocError, AllocFailed};
use thiserror::Error;

/// Why an integer can't be read.
#[derive(Clone, Copy, Debug, PartialEq, Eq, Error)]
pub enum IntFault {
    /// The bytes end inside the integer.
    #[error("the bytes end inside an integer")]
    Truncated,
    /// It has more than five octets after the first, or is above 4,294,967,295.
    #[error("an integer of more than five octets after the first, or above 4294967295")]
    Overflow,
}

/// Why a Huffman string can't be decoded.
#[derive(Clone, Copy, Debug, PartialEq, Eq, Error)]
pub enum HuffFault {
    /// An allocation was refused.
    #[error("out of memory")]
    Memory,
    /// The code of EOS stands in the string.
    #[error("the code of EOS in a Huffman string")]
    Eos,
    /// What is left after the last whole code is longer than seven bits, or isn't all ones.
    #[error("bad padding of a Huffman string")]
    BadPadding,
}

impl From<AllocError> for HuffFault {
    ghost use Rattle.hpack_codes.specs.declared.faults.HuffFault.TheVariants.{Memory};

    ghost from_gives = { λ _ e. e ≡ Memory };

    fn from(_refused: AllocError) -> HuffFault {
        HuffFault::Memory
    }
}

impl<T: Drop> From<AllocFailed<T>> for HuffFault {
    ghost use Rattle.hpack_codes.specs.declared.faults.HuffFault.TheVariants.{Memory};

    ghost from_gives = { λ _ e. e ≡ Memory };

    fn from(_refused: AllocFailed<T>) -> HuffFault {
        HuffFault::Memory
    }
}
