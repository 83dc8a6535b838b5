//! The numbers of fields.

/// TableSchema: the fields, each a TableFieldSchema.
pub const SCHEMA_FIELDS: u32 = 1;

/// TableFieldSchema: the name.
pub const FIELD_NAME: u32 = 1;

/// TableFieldSchema: the code of the type.
pub const COLUMN_TYPE: u32 = 2;

/// TableFieldSchema: the code of the mode.
pub const MODE: u32 = 3;

/// TableFieldSchema: the fields within the field, each a TableFieldSchema.
pub const FIELDS: u32 = 4;

/// WriteStream: the name.
pub const STREAM_NAME: u32 = 1;

/// WriteStream: the code of the type.
pub const STREAM_TYPE: u32 = 2;

/// WriteStream: the moment when it was made, a Timestamp.
pub const CREATE_TIME: u32 = 3;

/// WriteStream: the moment when it was committed, a Timestamp.
pub const COMMIT_TIME: u32 = 4;

/// WriteStream: the schema of its table, a TableSchema.
pub const TABLE_SCHEMA: u32 = 5;

/// CreateWriteStreamRequest: the name of the table.
pub const PARENT: u32 = 1;

/// CreateWriteStreamRequest: the write stream that is asked for, a WriteStream.
pub const WRITE_STREAM: u32 = 2;
