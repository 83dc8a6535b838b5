//! Why rows are refused.

ghost use Rattle.std.specs.Prelude.{◌≡◌};
ghost use Rattle.row_decode.specs.declared.faults.RowWhy.TheVariants as why;
ghost use Rattle.row_decode.specs.declared.faults.RowsFault.TheVariants as fault;

use outside::Memory;
use proto_fields::FieldFault;
use std::alloc::{AllocError, AllocFailed};
use std::marker::Model;
use thiserror::Error;

/// The most faulty rows that are named.
pub const MAX_FAULTS: usize = 100;

/// Why a row is refused. Malformed is tested first, and then the columns in their order; `column` is the column's
/// number, from 0.
#[derive(Clone, Copy, Debug, PartialEq, Eq, Error)]
pub enum RowWhy {
    /// An allocation was refused.
    #[error("out of memory")]
    Memory,
    /// The bytes are no message of Protocol Buffers.
    #[error("malformed row")]
    Malformed,
    /// The last value of a STRING column isn't UTF-8.
    #[error("bad text in column {column}")]
    BadText { column: u32 },
    /// The last value of an INT64, DATE or TIMESTAMP column is outside the column's range.
    #[error("value out of range in column {column}")]
    OutOfRange { column: u32 },
    /// A REQUIRED column has no value.
    #[error("no value in required column {column}")]
    Missing { column: u32 },
}

impl From<FieldFault> for RowWhy {
    ghost use Rattle.row_decode.specs.Answers.{why_of};

    ghost from_gives = { λ cause e. e ≡ why_of cause };

    fn from(cause: FieldFault) -> RowWhy {
        match cause {
            FieldFault::Memory => RowWhy::Memory,
            FieldFault::BadProto { .. } => RowWhy::Malformed,
        }
    }
}

impl From<Memory> for RowWhy {
    ghost from_gives = { λ _ e. e ≡ why.Memory };

    fn from(_want: Memory) -> RowWhy {
        RowWhy::Memory
    }
}

impl From<AllocError> for RowWhy {
    ghost from_gives = { λ _ e. e ≡ why.Memory };

    fn from(_refused: AllocError) -> RowWhy {
        RowWhy::Memory
    }
}

impl<T: Drop> From<AllocFailed<T>> for RowWhy {
    ghost from_gives = { λ _ e. e ≡ why.Memory };

    fn from(_refused: AllocFailed<T>) -> RowWhy {
        RowWhy::Memory
    }
}

/// A row that is refused.
#[derive(Clone, Copy, Debug, PartialEq, Eq)]
pub struct RowFault {
    /// The row's place in its request, from 0.
    pub index: u32,
    /// Why it is refused. It is not want of memory.
    pub why: RowWhy,
}

/// Rows that are refused, in their order. Contracts see their list.
#[derive(Drop)]
pub struct RowFaults {
    faults: Vec<RowFault>,
}

impl Model for RowFaults {
    ghost use Rattle.std.specs.Prelude.{List};
    ghost use Rattle.row_decode.specs.declared.faults.RowFault.{RowFault};

    ghost Value = { List RowFault };

    ghost view = { λ f. f.faults.items };
}

impl RowFaults {
    /// The list of a vector's faults, without a copy.
    pub fn from_vec(faults: Vec<RowFault>) -> RowFaults
        ensures { result ≡ faults.items }
    {
        RowFaults { faults }
    }

    /// The faults.
    pub fn faults(&self) -> &[RowFault]
        ensures { result.now ≡ self.now }
    {
        self.faults.as_slice()
    }

    /// The faults as a vector, without a copy.
    pub fn into_vec(self) -> Vec<RowFault>
        ensures { result.items ≡ self }
    {
        self.faults
    }
}

/// Why the rows of a request are refused.
#[derive(Drop)]
pub enum RowsFault {
    /// An allocation was refused.
    Memory,
    /// These rows are refused: the first 100, where there are more.
    Refused(RowFaults),
}

impl From<Memory> for RowsFault {
    ghost from_gives = { λ _ e. e ≡ fault.Memory };

    fn from(_want: Memory) -> RowsFault {
        RowsFault::Memory
    }
}

impl From<AllocError> for RowsFault {
    ghost from_gives = { λ _ e. e ≡ fault.Memory };

    fn from(_refused: AllocError) -> RowsFault {
        RowsFault::Memory
    }
}

impl<T: Drop> From<AllocFailed<T>> for RowsFault {
    ghost from_gives = { λ _ e. e ≡ fault.Memory };

    fn from(_refused: AllocFailed<T>) -> RowsFault {
        RowsFault::Memory
    }
}
