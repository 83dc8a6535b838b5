//! What lies outside the server: where its bytes come from and where they go.
//!
//! A contract can't say what a file or a socket gives. So the layers above are generic over the
//! traits of this crate, [`Source`] and [`Sink`], whose meanings are the bytes left to read and the
//! bytes taken, each where it is told, and a count of faults that never falls. `Failed` comes only
//! where that count rose. [`MemSource`] and [`MemSink`] tell their bytes; [`StdSource`] and
//! [`StdSink`] pass on what the reader or writer below them tells.
//!
//! The small types that every layer names stand here too: [`Memory`], the one answer that needs no
//! cause, [`Span`], [`Blob`], [`Blobs`] and [`Text`].
#![tactic(auto)]

mod blobs;
mod memory_sinks;
mod memory_sources;
mod scripts;
mod sinks;
mod sources;
mod std_streams;
mod texts;
mod wants;

pub use blobs::{Blob, Blobs, Span};
pub use memory_sinks::MemSink;
pub use memory_sources::MemSource;
pub use scripts::Piece;
pub use sinks::{Sink, SinkWrite};
pub use sources::{Source, SourceRead};
pub use std_streams::{StdSink, StdSource};
pub use texts::Text;
pub use wants::Memory;
