//! The numbers of fields in the messages of BigQueryWrite, as `storage.proto` of google.cloud.bigquery.storage.v1 has them.

ghost use Rattle.std.specs.Prelude.{◌≡◌};
ghost use Rattle.write_msgs.specs.declared.numbers.TheConstants.{WRITE_STREAM, OFFSET, PROTO_ROWS, ARROW_ROWS, WRITER_SCHEMA, ROWS, PROTO_DESCRIPTOR, SERIALIZED_ROWS, VALUE};
ghost use Rattle.write_msgs.specs.declared.numbers.TheConstants.{APPEND_RESULT, ERROR, ROW_ERRORS, RESPONSE_STREAM, RESULT_OFFSET, CODE, MESSAGE, INDEX, ROW_CODE, ROW_MESSAGE};
ghost use Rattle.write_msgs.specs.declared.numbers.TheConstants.{NAME, VIEW, ROW_COUNT, FLUSHED_STREAM, FLUSH_OFFSET, FLUSHED_OFFSET, SECONDS, NANOS};
ghost use Rattle.write_msgs.specs.declared.numbers.TheConstants.{STORAGE_CODE, ENTITY, ERROR_MESSAGE, PARENT, WRITE_STREAMS, COMMIT_TIME, STREAM_ERRORS};

/// AppendRowsRequest with its ProtoData, ProtoSchema and ProtoRows, and `Int64Value` of google.protobuf.
pub fn append_requests_in_figures()
    ensures stream { WRITE_STREAM ≡ 1 }
    ensures offset { OFFSET ≡ 2 }
    ensures proto_rows { PROTO_ROWS ≡ 4 }
    ensures arrow_rows { ARROW_ROWS ≡ 5 }
    ensures writer_schema { WRITER_SCHEMA ≡ 1 }
    ensures rows { ROWS ≡ 2 }
    ensures descriptor { PROTO_DESCRIPTOR ≡ 1 }
    ensures serialized { SERIALIZED_ROWS ≡ 1 }
    ensures value { VALUE ≡ 1 }
{}

/// AppendRowsResponse with its AppendResult and RowErrors, and `Status` of google.rpc.
pub fn append_responses_in_figures()
    ensures result { APPEND_RESULT ≡ 1 }
    ensures error { ERROR ≡ 2 }
    ensures row_errors { ROW_ERRORS ≡ 4 }
    ensures stream { RESPONSE_STREAM ≡ 5 }
    ensures offset { RESULT_OFFSET ≡ 1 }
    ensures code { CODE ≡ 1 }
    ensures message { MESSAGE ≡ 2 }
    ensures index { INDEX ≡ 1 }
    ensures row_code { ROW_CODE ≡ 2 }
    ensures row_message { ROW_MESSAGE ≡ 3 }
{}

/// GetWriteStreamRequest, FinalizeWriteStreamRequest and its response, FlushRowsRequest and its response, and `Timestamp` of
/// google.protobuf.
pub fn stream_requests_in_figures()
    ensures name { NAME ≡ 1 }
    ensures view { VIEW ≡ 3 }
    ensures row_count { ROW_COUNT ≡ 1 }
    ensures flushed_stream { FLUSHED_STREAM ≡ 1 }
    ensures flush_offset { FLUSH_OFFSET ≡ 2 }
    ensures flushed_offset { FLUSHED_OFFSET ≡ 1 }
    ensures seconds { SECONDS ≡ 1 }
    ensures nanos { NANOS ≡ 2 }
{}

/// BatchCommitWriteStreamsRequest, and its response with its StorageErrors.
pub fn commits_in_figures()
    ensures parent { PARENT ≡ 1 }
    ensures streams { WRITE_STREAMS ≡ 2 }
    ensures time { COMMIT_TIME ≡ 1 }
    ensures errors { STREAM_ERRORS ≡ 2 }
    ensures code { STORAGE_CODE ≡ 1 }
    ensures entity { ENTITY ≡ 2 }
    ensures message { ERROR_MESSAGE ≡ 3 }
{}
