//! Why a call on streams is refused.

ghost use Rattle.std.specs.Prelude.{◌≡◌};

use std::alloc::{AllocError, AllocFailed};
use thiserror::Error;

/// Why HEADERS open no stream (RFC 9113 sections 5.1.1 and 5.1.2).
#[derive(Clone, Copy, Debug, PartialEq, Eq, Error)]
pub enum BeginRefusal {
    /// A client's ids are odd.
    #[error("an even id")]
    NotOdd,
    /// The id isn't above the last one begun, which this carries.
    #[error("an id of at most {last}, the last one begun")]
    NotRising { last: u32 },
    /// 100 streams live. The id counts as begun, and is remembered as reset by the server.
    #[error("{live} streams live")]
    TooMany { live: u32 },
    /// An allocation was refused. The streams are as they were.
    #[error("out of memory")]
    Memory,
}

impl From<AllocError> for BeginRefusal {
    ghost use Rattle.h2_streams.specs.declared.refusals.BeginRefusal.TheVariants.{Memory};

    ghost from_gives = { λ _ e. e ≡ Memory };

    fn from(_refused: AllocError) -> BeginRefusal {
        BeginRefusal::Memory
    }
}

impl<T: Drop> From<AllocFailed<T>> for BeginRefusal {
    ghost use Rattle.h2_streams.specs.declared.refusals.BeginRefusal.TheVariants.{Memory};

    ghost from_gives = { λ _ e. e ≡ Memory };

    fn from(_refused: AllocFailed<T>) -> BeginRefusal {
        BeginRefusal::Memory
    }
}

/// Why DATA isn't taken (RFC 9113 sections 5.1 and 6.9.1).
#[derive(Clone, Copy, Debug, PartialEq, Eq, Error)]
pub enum BodyRefusal {
    /// The stream is closed, or the client has ended it.
    #[error("the stream is closed, or the client has ended it")]
    Closed,
    /// More bytes came than the stream's receive window has.
    #[error("{asked} bytes came, and the window has {had}")]
    Overrun { had: i64, asked: u32 },
}
