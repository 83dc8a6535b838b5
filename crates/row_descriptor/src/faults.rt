//! Why bytes are no descriptor, and why a descriptor can't be bound.

ghost use Rattle.std.specs.Prelude.{◌≡◌};
ghost use Rattle.row_descriptor.specs.Faults.{fault_of};
ghost use Rattle.row_descriptor.specs.declared.faults.DescriptorFault.TheVariants as fault;
ghost use Rattle.row_descriptor.specs.declared.faults.BindFault.TheVariants as bind;

use outside::{Memory, Text};
use proto_fields::FieldFault;
use std::alloc::{AllocError, AllocFailed};
use thiserror::Error;

/// Why bytes are no descriptor.
#[derive(Clone, Copy, Debug, PartialEq, Eq, Error)]
pub enum DescriptorFault {
    /// An allocation was refused.
    #[error("out of memory")]
    Memory,
    /// The bytes, or those of a field, are no message; there is no field; a field has no name, number or type; a
    /// name, the message's own too, isn't UTF-8; a number is outside 1 to 536,870,911; two numbers are equal; or two
    /// names are equal without ASCII case.
    #[error("bad descriptor")]
    BadDescriptor,
}

impl From<FieldFault> for DescriptorFault {
    ghost from_gives = { λ cause e. e ≡ fault_of cause };

    fn from(cause: FieldFault) -> DescriptorFault {
        match cause {
            FieldFault::Memory => DescriptorFault::Memory,
            FieldFault::BadProto { .. } => DescriptorFault::BadDescriptor,
        }
    }
}

impl From<Memory> for DescriptorFault {
    ghost from_gives = { λ _ e. e ≡ fault.Memory };

    fn from(_want: Memory) -> DescriptorFault {
        DescriptorFault::Memory
    }
}

impl From<AllocError> for DescriptorFault {
    ghost from_gives = { λ _ e. e ≡ fault.Memory };

    fn from(_refused: AllocError) -> DescriptorFault {
        DescriptorFault::Memory
    }
}

impl<T: Drop> From<AllocFailed<T>> for DescriptorFault {
    ghost from_gives = { λ _ e. e ≡ fault.Memory };

    fn from(_refused: AllocFailed<T>) -> DescriptorFault {
        DescriptorFault::Memory
    }
}

/// Why a descriptor can't be bound to the columns of a table. The tests are made in this order.
#[derive(Drop)]
pub enum BindFault {
    /// An allocation was refused.
    Memory,
    /// No column has the name of this field, which is the first such field. The name is the field's spelling.
    ExtraField(Text),
    /// The field of this name is repeated, or its type isn't one that its column is read from. It is the first such
    /// field, and the name is its spelling.
    TypeMismatch(Text),
    /// The column of this name is REQUIRED, and no field has its name. It is the first such column, and the name is
    /// its spelling.
    MissingRequired(Text),
}

impl From<Memory> for BindFault {
    ghost from_gives = { λ _ e. e ≡ bind.Memory };

    fn from(_want: Memory) -> BindFault {
        BindFault::Memory
    }
}

impl<T: Drop> From<AllocFailed<T>> for BindFault {
    ghost from_gives = { λ _ e. e ≡ bind.Memory };

    fn from(_refused: AllocFailed<T>) -> BindFault {
        BindFault::Memory
    }
}

impl From<AllocError> for BindFault {
    ghost from_gives = { λ _ e. e ≡ bind.Memory };

    fn from(_refused: AllocError) -> BindFault {
        BindFault::Memory
    }
}
