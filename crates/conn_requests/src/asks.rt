//! What is asked.

use grpc_meta::Method;
use outside::Blob;

/// How a call ends without a request.
#[derive(Clone, Copy, Debug, PartialEq, Eq)]
pub enum Over {
    /// The client has ended an AppendRows call.
    Finished,
    /// The body ends inside a message.
    CutShort,
    /// A call of one message has another number of them.
    OneWanted,
    /// A message is longer than `grpc_frame::MESSAGE_LIMIT`. It comes with the last byte of its length.
    TooLong,
    /// A message is compressed, and the call names no coding for it. It comes with the message's flag.
    Compressed,
    /// A message is compressed by a coding that the call names. It comes with the message's flag.
    Coded,
    /// The path is that of no method.
    UnknownMethod,
    /// The method of HTTP isn't POST.
    NotPost,
    /// The content type is none of gRPC with protobuf.
    NotGrpc,
    /// The list of header fields is too large.
    ListTooLarge,
}

/// What is asked on a stream, and decided at once.
#[derive(Drop)]
pub enum Ask {
    /// A message of an AppendRows call. One that can't be read ends the call.
    Append(Blob),
    /// A call of another method, with its message.
    Call(Method, Blob),
    /// The end of a call, which asks nothing of a table.
    Ends(Over),
}
