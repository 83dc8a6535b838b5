//! The gate of one connection.

use links::{Gate, Moment};

/// The gate of one connection, which numbers its requests from 1. It means nothing to any contract.
#[derive(Drop)]
pub struct Gated<'a, G: Gate> {
    gate: &'a G,
    connection: u32,
    requests: u32,
}

impl<'a, G: Gate> Gated<'a, G> {
    /// The gate of the connection with this number, which has had no request.
    pub fn new(gate: &'a G, connection: u32) -> Gated<'a, G> {
        Gated {
            gate,
            connection,
            requests: 0,
        }
    }

    /// A request begins: it is the next.
    pub(crate) fn enter(&mut self) {
        self.requests = self.requests.saturating_add(1);
        self.gate
            .reach(self.connection, self.requests, Moment::Before);
    }

    /// The answer of the latest request is queued.
    pub(crate) fn leave(&self) {
        self.gate
            .reach(self.connection, self.requests, Moment::After);
    }
}
