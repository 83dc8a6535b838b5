//! What the words ask for.

ghost use Rattle.std.specs.Prelude.{◌≡◌};

use crate::tables::TableSpecs;
use outside::{Memory, Text};
use std::alloc::{AllocError, AllocFailed};
use table_spec::{SpecFault, TableSpec};
use thiserror::Error;

/// A command with what its words gave.
#[derive(Drop)]
pub enum CommandLine {
    /// `body`, or `body --table SPEC`.
    Body {
        table: Option<TableSpec>,
    },
    /// `pipe --table SPEC`, with 1 to 8 tables in the order of the words.
    Pipe {
        tables: TableSpecs,
    },
    /// `serve --listen ADDR --workers W --connections N --table SPEC`: the text of ADDR, 1 to 32 workers, 1 to
    /// 65,536 connections, and 1 to 8 tables in the order of the words.
    Serve {
        listen: Text,
        workers: u32,
        connections: u32,
        tables: TableSpecs,
    },
    /// `drill N`, N from 1 to 10,000.
    Drill {
        n: u32,
    },
}

/// Why the words gave no command line.
#[derive(Clone, Copy, Debug, PartialEq, Eq, Error)]
pub enum LineFault {
    /// An allocation was refused.
    #[error("out of memory")]
    Memory,
    /// The words are no command line.
    #[error("no command line of the program")]
    Usage,
}

impl From<Memory> for LineFault {
    ghost use Rattle.command_line.specs.declared.line.LineFault.TheVariants as fault;

    ghost from_gives = { λ _ e. e ≡ fault.Memory };

    fn from(_want: Memory) -> LineFault {
        LineFault::Memory
    }
}

impl From<AllocError> for LineFault {
    ghost use Rattle.command_line.specs.declared.line.LineFault.TheVariants as fault;

    ghost from_gives = { λ _ e. e ≡ fault.Memory };

    fn from(_refused: AllocError) -> LineFault {
        LineFault::Memory
    }
}

impl<T: Drop> From<AllocFailed<T>> for LineFault {
    ghost use Rattle.command_line.specs.declared.line.LineFault.TheVariants as fault;

    ghost from_gives = { λ _ e. e ≡ fault.Memory };

    fn from(_refused: AllocFailed<T>) -> LineFault {
        LineFault::Memory
    }
}

impl From<SpecFault> for LineFault {
    ghost use Rattle.command_line.specs.Reads.{fault_from};

    ghost from_gives = { λ s e. e ≡ fault_from s };

    fn from(fault: SpecFault) -> LineFault {
        match fault {
            SpecFault::Memory => LineFault::Memory,
            SpecFault::NoSpec => LineFault::Usage,
        }
    }
}
