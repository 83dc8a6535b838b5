//! What is answered.

ghost use Rattle.std.specs.Prelude.{◌≡◌, ◌||◌, ◌==◌, IsTrue};
ghost use Rattle.conn_requests.specs.Ends.{http_code};

use grpc_meta::Status;
use outside::{Blob, Blobs};

/// An answer of HTTP alone (RFC 9110 section 15.5; RFC 6585 section 5).
#[derive(Clone, Copy, Debug, PartialEq, Eq)]
pub enum HttpStatus {
    /// 405: the method isn't POST.
    MethodNotAllowed,
    /// 415: the content type isn't gRPC's.
    UnsupportedMediaType,
    /// 431: the list of header fields is too large.
    FieldsTooLarge,
}

impl HttpStatus {
    /// The code of HTTP.
    pub fn code(self) -> u16
        ensures code { result ≡ http_code self }
        ensures one_of { IsTrue (result == 405 || result == 415 || result == 431) }
    {
        match self {
            HttpStatus::MethodNotAllowed => 405,
            HttpStatus::UnsupportedMediaType => 415,
            HttpStatus::FieldsTooLarge => 431,
        }
    }
}

/// The answer to what was decided.
#[derive(Drop)]
pub enum Answer {
    /// The response to a message of an AppendRows call, which goes on.
    Goes(Blob),
    /// Responses, and the status that ends the call.
    Ends(Blobs, Status),
    /// A status of HTTP, which ends the call.
    Http(HttpStatus),
}
