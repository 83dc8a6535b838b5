//! Laws of the messages, each the contract of a function that does nothing.

ghost use Rattle.read_msgs.specs.RoundTrip.{CreateRequestsReadBack, RowsRequestsReadBack, RowsResponsesReadBack, SessionsReadBack, SplitRequestsReadBack, SplitResponsesReadBack};

/// What `encode` writes of a ReadSession or a CreateReadSessionRequest whose format isn't ARROW, in
/// fewer than 2^32 bytes, `decode` reads back as the same message.
pub fn sessions_read_back()
    ensures session { SessionsReadBack }
    ensures request { CreateRequestsReadBack }
{}

/// What `encode` writes of a SplitReadStreamRequest or a SplitReadStreamResponse, in fewer than 2^32
/// bytes, `decode` reads back as the same message.
pub fn splits_read_back()
    ensures request { SplitRequestsReadBack }
    ensures response { SplitResponsesReadBack }
{}

/// What `encode` writes of a ReadRowsRequest or a ReadRowsResponse, in fewer than 2^32 bytes, `decode`
/// reads back as the same message.
pub fn rows_read_back()
    ensures request { RowsRequestsReadBack }
    ensures response { RowsResponsesReadBack }
{}
