//! The two kinds of call.

use grpc_meta::Method;
use outside::Blob;

/// The messages of a call that wants one. Of many none is kept.
#[derive(Drop)]
pub(crate) enum Sole {
    Empty,
    One(Blob),
    Many,
}

/// When the messages of a call are asked.
#[derive(Drop)]
pub(crate) enum Kind {
    /// AppendRows: each as it is whole.
    Appending,
    /// Every other method: the one message, once the client has ended the call.
    Collecting(Method, Sole),
}
