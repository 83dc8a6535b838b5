//! The door of the server, where its connections come from.
//!
//! A contract can't say who connects to a socket. So the layers above are generic over [`Door`],
//! whose meanings are the links left to give and the links handed back, each where it is told, how
//! many links are out, whether it answered that it is closed, and a count of faults that never falls.
//! [`MemDoor`] is a door in memory, which tells them all.
#![tactic(auto)]

mod door;
mod memory_doors;

pub use door::{Accepted, Door, DoorFailed};
pub use memory_doors::MemDoor;
