//! The numbers of fields in the messages of BigQueryRead, as `storage.proto`, `stream.proto` and `avro.proto` of
//! google.cloud.bigquery.storage.v1 have them.

ghost use Rattle.std.specs.Prelude.{◌≡◌, pos};
ghost use Rattle.read_msgs.specs.declared.numbers.TheConstants.{PARENT, READ_SESSION, MAX_STREAM_COUNT, SESSION_NAME, EXPIRE_TIME, DATA_FORMAT, AVRO_SCHEMA, TABLE, TABLE_MODIFIERS, READ_OPTIONS, STREAMS};
ghost use Rattle.read_msgs.specs.declared.numbers.TheConstants.{ARROW, SNAPSHOT_TIME, SELECTED_FIELDS, ROW_RESTRICTION, SAMPLE_PERCENTAGE, STREAM_NAME};
ghost use Rattle.read_msgs.specs.declared.numbers.TheConstants.{READ_STREAM, OFFSET, AVRO_ROWS, ROW_COUNT, ROWS_SCHEMA, SERIALIZED_BINARY_ROWS, SCHEMA, SPLIT_NAME, PRIMARY_STREAM, REMAINDER_STREAM};

/// CreateReadSessionRequest and ReadSession.
pub fn read_sessions_in_figures()
    ensures parent { PARENT ≡ 1 }
    ensures session { READ_SESSION ≡ 2 }
    ensures most_streams { MAX_STREAM_COUNT ≡ 3 }
    ensures name { SESSION_NAME ≡ 1 }
    ensures expire_time { EXPIRE_TIME ≡ 2 }
    ensures data_format { DATA_FORMAT ≡ 3 }
    ensures schema { AVRO_SCHEMA ≡ 4 }
    ensures table { TABLE ≡ 6 }
    ensures modifiers { TABLE_MODIFIERS ≡ 7 }
    ensures options { READ_OPTIONS ≡ 8 }
    ensures streams { STREAMS ≡ 10 }
{}

/// TableModifiers, TableReadOptions and ReadStream; DataFormat.ARROW is 2.
pub fn read_options_in_figures()
    ensures arrow { ARROW ≡ pos 2 }
    ensures snapshot { SNAPSHOT_TIME ≡ 1 }
    ensures selected { SELECTED_FIELDS ≡ 1 }
    ensures restriction { ROW_RESTRICTION ≡ 2 }
    ensures sample { SAMPLE_PERCENTAGE ≡ 5 }
    ensures stream_name { STREAM_NAME ≡ 1 }
{}

/// ReadRowsRequest and ReadRowsResponse with its AvroRows and AvroSchema, SplitReadStreamRequest and its response.
pub fn reads_in_figures()
    ensures stream { READ_STREAM ≡ 1 }
    ensures offset { OFFSET ≡ 2 }
    ensures rows { AVRO_ROWS ≡ 3 }
    ensures row_count { ROW_COUNT ≡ 6 }
    ensures rows_schema { ROWS_SCHEMA ≡ 7 }
    ensures binary_rows { SERIALIZED_BINARY_ROWS ≡ 1 }
    ensures schema { SCHEMA ≡ 1 }
    ensures split { SPLIT_NAME ≡ 1 }
    ensures primary { PRIMARY_STREAM ≡ 1 }
    ensures remainder { REMAINDER_STREAM ≡ 2 }
{}
