//! The numbers of fields.

/// CreateReadSessionRequest: the name of the project.
pub const PARENT: u32 = 1;

/// CreateReadSessionRequest: what is asked for, a ReadSession.
pub const READ_SESSION: u32 = 2;

/// CreateReadSessionRequest: the greatest number of read streams.
pub const MAX_STREAM_COUNT: u32 = 3;

/// ReadSession: its name.
pub const SESSION_NAME: u32 = 1;

/// ReadSession: the moment from which it is read no more, a Timestamp.
pub const EXPIRE_TIME: u32 = 2;

/// ReadSession: the code of the format of its rows.
pub const DATA_FORMAT: u32 = 3;

/// ReadSession: the schema of its rows, an AvroSchema.
pub const AVRO_SCHEMA: u32 = 4;

/// ReadSession: the name of the table.
pub const TABLE: u32 = 6;

/// ReadSession: a TableModifiers.
pub const TABLE_MODIFIERS: u32 = 7;

/// ReadSession: a TableReadOptions.
pub const READ_OPTIONS: u32 = 8;

/// ReadSession: its read streams, each a ReadStream.
pub const STREAMS: u32 = 10;

/// DataFormat: the code of ARROW, which is not served.
pub const ARROW: i32 = 2;

/// TableModifiers: the moment whose rows are read, a Timestamp.
pub const SNAPSHOT_TIME: u32 = 1;

/// TableReadOptions: the names of the columns that are read.
pub const SELECTED_FIELDS: u32 = 1;

/// TableReadOptions: which rows are read.
pub const ROW_RESTRICTION: u32 = 2;

/// TableReadOptions: how much of the table is sampled, a double, which is not served.
pub const SAMPLE_PERCENTAGE: u32 = 5;

/// ReadStream: its name.
pub const STREAM_NAME: u32 = 1;

/// ReadRowsRequest: the name of the read stream.
pub const READ_STREAM: u32 = 1;

/// ReadRowsRequest: the number of rows that are passed over.
pub const OFFSET: u32 = 2;

/// ReadRowsResponse: the rows, an AvroRows.
pub const AVRO_ROWS: u32 = 3;

/// ReadRowsResponse: the number of rows.
pub const ROW_COUNT: u32 = 6;

/// ReadRowsResponse: the schema of the rows, an AvroSchema.
pub const ROWS_SCHEMA: u32 = 7;

/// AvroRows: the rows.
pub const SERIALIZED_BINARY_ROWS: u32 = 1;

/// AvroSchema: the schema as a text.
pub const SCHEMA: u32 = 1;

/// SplitReadStreamRequest: the name of the read stream.
pub const SPLIT_NAME: u32 = 1;

/// SplitReadStreamResponse: the front of the rows, a ReadStream.
pub const PRIMARY_STREAM: u32 = 1;

/// SplitReadStreamResponse: the other rows, a ReadStream.
pub const REMAINDER_STREAM: u32 = 2;
