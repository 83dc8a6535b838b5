//! Laws of the messages, each the contract of a function that does nothing.

ghost use Rattle.write_msgs.specs.RoundTrip.{RequestsReadBack, ResponsesReadBack};

/// What `encode` writes of an AppendRowsRequest, in fewer than 2^32 bytes, `decode` reads back as the
/// same request.
pub fn requests_read_back()
    ensures { RequestsReadBack }
{}

/// What `encode` writes of an AppendRowsResponse, in fewer than 2^32 bytes, `decode` reads back as
/// the same response.
pub fn responses_read_back()
    ensures { ResponsesReadBack }
{}
