ghost use Rattle.std.specs.Prelude.{◌≡◌};
ghost use Rattle.proto_fields.specs.declared.faults.FieldFault.TheVariants as fault;

use outside::Memory;
use std::alloc::{AllocError, AllocFailed};
use thiserror::Error;

/// Why the fields of a message could not be read.
#[derive(Clone, Copy, Debug, PartialEq, Eq, Error)]
pub enum FieldFault {
    /// An allocation was refused.
    #[error("out of memory")]
    Memory,
    /// The bytes are no message of Protocol Buffers: `at` is the place of the first byte of the tag
    /// of the first field that can't be read. Its number is 0 or above 536,870,911, its wire type is
    /// 3, 4, 6 or 7, a varint of it has more than ten bytes, or bytes are missing.
    #[error("bad field at {at}")]
    BadProto { at: usize },
}

impl From<Memory> for FieldFault {
    ghost from_gives = { λ _ e. e ≡ fault.Memory };

    fn from(_want: Memory) -> FieldFault {
        FieldFault::Memory
    }
}

impl From<AllocError> for FieldFault {
    ghost from_gives = { λ _ e. e ≡ fault.Memory };

    fn from(_refused: AllocError) -> FieldFault {
        FieldFault::Memory
    }
}

impl<T: Drop> From<AllocFailed<T>> for FieldFault {
    ghost from_gives = { λ _ e. e ≡ fault.Memory };

    fn from(_refused: AllocFailed<T>) -> FieldFault {
        FieldFault::Memory
    }
}
