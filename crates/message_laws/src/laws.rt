//! Laws of the messages, by call, each the contract of a function that does nothing.

ghost use Rattle.message_laws.specs.RoundTrip.{CommitRequestsReadBack, CommitResponsesReadBack, FinalizeRequestsReadBack, FinalizeResponsesReadBack, FlushRequestsReadBack, FlushResponsesReadBack, GetRequestsReadBack, StorageErrorsReadBack, TimestampsReadBack};

/// What `encode` writes of a GetWriteStreamRequest, in fewer than 2^32 bytes, `decode` reads back as
/// the same request.
pub fn gets_read_back()
    ensures { GetRequestsReadBack }
{}

/// What `encode` writes of a FinalizeWriteStreamRequest or a FinalizeWriteStreamResponse, in fewer
/// than 2^32 bytes, `decode` reads back as the same message.
pub fn finalizes_read_back()
    ensures request { FinalizeRequestsReadBack }
    ensures response { FinalizeResponsesReadBack }
{}

/// What `encode` writes of a FlushRowsRequest or a FlushRowsResponse, in fewer than 2^32 bytes,
/// `decode` reads back as the same message.
pub fn flushes_read_back()
    ensures request { FlushRequestsReadBack }
    ensures response { FlushResponsesReadBack }
{}

/// What `encode` writes of a Timestamp or a StorageError, in fewer than 2^32 bytes, `decode` reads
/// back as the same message.
pub fn commit_parts_read_back()
    ensures time { TimestampsReadBack }
    ensures error { StorageErrorsReadBack }
{}

/// What `encode` writes of a BatchCommitWriteStreamsRequest or a BatchCommitWriteStreamsResponse, in
/// fewer than 2^32 bytes, `decode` reads back as the same message.
pub fn commits_read_back()
    ensures request { CommitRequestsReadBack }
    ensures response { CommitResponsesReadBack }
{}
