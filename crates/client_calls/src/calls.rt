//! The calls of a client.

ghost use Rattle.std.specs.Prelude.{◌≡◌};
ghost use Rattle.std.specs.List.{list_all};
ghost use Rattle.client_calls.specs.Calls.{is_id_above, is_short, may_send};

use grpc_frame::MESSAGE_LIMIT;
use grpc_meta::Method;
use outside::Blob;

/// A call of a client.
#[derive(Drop)]
pub struct ClientCall {
    /// The id of its stream.
    pub stream: u32,
    /// The method that it asks for.
    pub method: Method,
    /// Its messages, as they are before they are framed.
    pub messages: Vec<Blob>,
    /// Whether the client ends the call behind its messages.
    pub end: bool,
}

/// Whether a client may begin a stream of this id behind one of the id `last`, which is 0 before the first.
fn is_id_above(last: u32, id: u32) -> bool
    ensures { result ≡ is_id_above last id }
{
    last < id && id % 2 == 1 && id < 1 << 31
}

/// Whether none of the messages is longer than a call's may be.
fn are_short(messages: &[Blob]) -> bool
    ensures { result ≡ list_all is_short messages.now }
{
    messages
        .iter()
        .all(|message| message.len() <= MESSAGE_LIMIT as usize)
}

/// Whether the calls may be sent on one connection: the ids of their streams are odd, each is greater than the one
/// before it and below 2^31, and each message has at most [`MESSAGE_LIMIT`] bytes.
pub fn may_send(calls: &[ClientCall]) -> bool
    ensures { result ≡ may_send calls.now }
{
    let mut last = 0;
    for call in calls {
        if !is_id_above(last, call.stream) || !are_short(&call.messages) {
            return false;
        }
        last = call.stream;
    }
    true
}
