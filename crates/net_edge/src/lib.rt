//! Connections over TCP.
//!
//! A [`TcpDoor`] listens at an address and gives each connection as a [`TcpLink`]. They meet the
//! traits of the crates doors and links, and tell no links and no bytes: what a socket gives is beyond
//! any contract. A link's stream doesn't wait but where `wait` does, by the readiness that the system
//! reports.
#![tactic(auto)]

mod gathered;
mod sockets;
mod tcp_doors;
mod tcp_links;
#[cfg(test)]
mod tests;

pub use tcp_doors::TcpDoor;
pub use tcp_links::TcpLink;
