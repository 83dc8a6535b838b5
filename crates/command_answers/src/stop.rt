//! Why the program stops.

use outside::Memory;
use std::alloc::{AllocError, AllocFailed};
use std::io;
use std::io::ErrorKind;

/// What ends the program before its input does.
#[derive(Clone, Copy, Debug, PartialEq, Eq)]
pub(crate) enum Stop {
    /// Memory was refused.
    Memory,
    /// Standard input or output failed.
    Fault,
    /// A line can't be read.
    Unread,
}

impl From<Memory> for Stop {
    fn from(_: Memory) -> Stop {
        Stop::Memory
    }
}

impl From<AllocError> for Stop {
    fn from(_: AllocError) -> Stop {
        Stop::Memory
    }
}

impl<T: Drop> From<AllocFailed<T>> for Stop {
    fn from(_: AllocFailed<T>) -> Stop {
        Stop::Memory
    }
}

impl From<io::Error> for Stop {
    fn from(fault: io::Error) -> Stop {
        if fault.kind() == ErrorKind::OutOfMemory {
            Stop::Memory
        } else {
            Stop::Fault
        }
    }
}
