//! What a connection is served over: a link, a clock and a gate.
//!
//! A contract can't say what a socket, standard input or the machine's clock gives. So the layers
//! above are generic over the traits of this crate. A [`Link`] has as meanings its log (what was read
//! and written, and its waits, in the order of the calls) and the bytes left to read, each where it is
//! told, whether a read met the end, whether it is closed, whether its last call was a write that
//! wasn't ready, and a count of faults that never falls. A [`Clock`] has its readings, where they are
//! told. A [`Gate`] means nothing to any contract; by it a test holds a connection.
//!
//! In memory there are [`MemLink`], [`MemClock`], [`OpenGate`] and [`ScriptGate`]. [`StdLink`] is a link over a reader
//! and a writer of std, and [`SystemClock`] reads the machine's clock. [`write_all`] and
//! [`read_at_most`] move a buffer's bytes over any link.
#![tactic(auto)]

mod clocks;
mod gates;
mod link;
mod memory_clocks;
mod memory_links;
mod pieces;
mod script_gates;
mod scripts;
mod std_links;
mod system_clocks;
mod traffic;

pub use clocks::{Clock, LATEST_READING};
pub use gates::{Gate, Moment, OpenGate};
pub use link::{Link, LinkFailed, LinkRead, LinkWrite};
pub use memory_clocks::MemClock;
pub use memory_links::MemLink;
pub use pieces::{Written, read_at_most, write_all};
pub use script_gates::{Hold, ScriptGate};
pub use std_links::StdLink;
pub use system_clocks::SystemClock;
