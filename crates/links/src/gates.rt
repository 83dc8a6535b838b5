//! The gate, by which a test holds a connection.

/// When a connection reaches its gate.
#[derive(Clone, Copy, Debug, PartialEq, Eq)]
pub enum Moment {
    /// Before a request is answered.
    Before,
    /// After its answer is queued.
    After,
}

/// A gate that a connection passes at each request. It means nothing to any contract.
pub trait Gate {
    /// The request with this number, from 1, of the connection with this number is at this moment. A
    /// gate holds the connection by not returning yet.
    fn reach(&self, connection: u32, request: u32, moment: Moment);
}

/// The gate that holds nobody.
#[derive(Clone, Copy, Debug, Default, PartialEq, Eq)]
pub struct OpenGate;

impl Gate for OpenGate {
    fn reach(&self, _connection: u32, _request: u32, _moment: Moment) {}
}
