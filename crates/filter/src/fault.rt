//! Why a text is no restriction.

use outside::Text;
use std::fmt;
use std::fmt::{Debug, Formatter, Write};
use thiserror::Error;

/// Why a text is no restriction.
#[derive(Drop, Error)]
pub enum FilterFault {
    /// Want of memory.
    #[error("out of memory")]
    Memory,
    /// The text has more than 16,384 bytes, more than 1,024 literals, or `(` and NOT more than 64 deep.
    #[error("restriction too long")]
    Long,
    /// At byte `at` of the text, from 0, begins the first token, or what is no token, that can't follow, or the
    /// text ends too early.
    #[error("restriction syntax at {at}")]
    Syntax { at: usize },
    /// No column has this name without ASCII case. The name is as written, without backquotes.
    #[error("unknown column")]
    UnknownColumn { name: Text },
    /// A test of the column of this name is of another type. The name is as written, without backquotes.
    #[error("restriction is ill typed")]
    IllTyped { name: Text },
}

impl Debug for FilterFault {
    fn fmt<W: Write>(&self, f: &mut Formatter<W>) -> fmt::Result {
        write!(f, "{self}")
    }
}
