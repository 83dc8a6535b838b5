//! The numbers of fields.

/// AppendRowsRequest: the name of the write stream.
pub const WRITE_STREAM: u32 = 1;

/// AppendRowsRequest: the offset of the first row, an Int64Value.
pub const OFFSET: u32 = 2;

/// AppendRowsRequest: the rows, a ProtoData.
pub const PROTO_ROWS: u32 = 4;

/// AppendRowsRequest: rows in the ARROW format, which are not served.
pub const ARROW_ROWS: u32 = 5;

/// ProtoData: what describes the rows, a ProtoSchema.
pub const WRITER_SCHEMA: u32 = 1;

/// ProtoData: a ProtoRows.
pub const ROWS: u32 = 2;

/// ProtoSchema: a DescriptorProto.
pub const PROTO_DESCRIPTOR: u32 = 1;

/// ProtoRows: each row's bytes.
pub const SERIALIZED_ROWS: u32 = 1;

/// Int64Value: the number.
pub const VALUE: u32 = 1;

/// AppendRowsResponse: an AppendResult.
pub const APPEND_RESULT: u32 = 1;

/// AppendRowsResponse: the error, a Status.
pub const ERROR: u32 = 2;

/// AppendRowsResponse: the errors of rows, each a RowError.
pub const ROW_ERRORS: u32 = 4;

/// AppendRowsResponse: the name of the write stream.
pub const RESPONSE_STREAM: u32 = 5;

/// AppendResult: the offset of the first row, an Int64Value.
pub const RESULT_OFFSET: u32 = 1;

/// Status: the code.
pub const CODE: u32 = 1;

/// Status: the text.
pub const MESSAGE: u32 = 2;

/// RowError: the place of the row in its request.
pub const INDEX: u32 = 1;

/// RowError: the code.
pub const ROW_CODE: u32 = 2;

/// RowError: the text.
pub const ROW_MESSAGE: u32 = 3;

/// GetWriteStreamRequest, FinalizeWriteStreamRequest: the name of the write stream.
pub const NAME: u32 = 1;

/// GetWriteStreamRequest: how much of the write stream is asked for.
pub const VIEW: u32 = 3;

/// FinalizeWriteStreamResponse: the number of rows.
pub const ROW_COUNT: u32 = 1;

/// FlushRowsRequest: the name of the write stream.
pub const FLUSHED_STREAM: u32 = 1;

/// FlushRowsRequest: the offset of the last row to be flushed, an Int64Value.
pub const FLUSH_OFFSET: u32 = 2;

/// FlushRowsResponse: the offset of the last row that was flushed.
pub const FLUSHED_OFFSET: u32 = 1;

/// Timestamp: seconds since 1970-01-01T00:00:00Z.
pub const SECONDS: u32 = 1;

/// Timestamp: nanoseconds of the second.
pub const NANOS: u32 = 2;

/// StorageError: the code.
pub const STORAGE_CODE: u32 = 1;

/// StorageError: what the error is about.
pub const ENTITY: u32 = 2;

/// StorageError: the text.
pub const ERROR_MESSAGE: u32 = 3;

/// BatchCommitWriteStreamsRequest: the name of the table.
pub const PARENT: u32 = 1;

/// BatchCommitWriteStreamsRequest: the names of the write streams.
pub const WRITE_STREAMS: u32 = 2;

/// BatchCommitWriteStreamsResponse: the moment of the commit, a Timestamp.
pub const COMMIT_TIME: u32 = 1;

/// BatchCommitWriteStreamsResponse: why there was no commit, each a StorageError.
pub const STREAM_ERRORS: u32 = 2;
