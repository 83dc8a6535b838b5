//! The numbers of fields of write streams and of schemas, as `stream.proto` and `table.proto` of
//! google.cloud.bigquery.storage.v1 have them.

ghost use Rattle.std.specs.Prelude.{◌≡◌};
ghost use Rattle.schema_msgs.specs.declared.numbers.TheConstants.{SCHEMA_FIELDS, FIELD_NAME, COLUMN_TYPE, MODE, FIELDS};
ghost use Rattle.schema_msgs.specs.declared.numbers.TheConstants.{STREAM_NAME, STREAM_TYPE, CREATE_TIME, COMMIT_TIME, TABLE_SCHEMA, PARENT, WRITE_STREAM};

/// TableSchema and TableFieldSchema.
pub fn schemas_in_figures()
    ensures fields { SCHEMA_FIELDS ≡ 1 }
    ensures name { FIELD_NAME ≡ 1 }
    ensures column_type { COLUMN_TYPE ≡ 2 }
    ensures mode { MODE ≡ 3 }
    ensures inner { FIELDS ≡ 4 }
{}

/// WriteStream and CreateWriteStreamRequest.
pub fn write_streams_in_figures()
    ensures name { STREAM_NAME ≡ 1 }
    ensures stream_type { STREAM_TYPE ≡ 2 }
    ensures create_time { CREATE_TIME ≡ 3 }
    ensures commit_time { COMMIT_TIME ≡ 4 }
    ensures schema { TABLE_SCHEMA ≡ 5 }
    ensures parent { PARENT ≡ 1 }
    ensures stream { WRITE_STREAM ≡ 2 }
{}
