/// AppendRowsRequest: the name of the write stream.
pub const WRITE_STREAM: u32 = 1;

/// AppendRowsRequest: the offset of the first row, an Int64Value.
pub const OFFSET: u32 = 2;

/// AppendRowsRequest: the rows, a ProtoData.
pub const PROTO_ROWS: u32 = 4;

/// AppendRowsRequest: rows in the ARROW format, which are not served.
pub const ARROW_ROWS: u32 = 5;

/// ProtoData: a ProtoRows.
pub const ROWS: u32 = 2;

/// ProtoRows: each row's bytes.
pub const SERIALIZED_ROWS: u32 = 1;

/// Int64Value: the number.
pub const VALUE: u32 = 1;

/// AppendRowsResponse: an AppendResult.
pub const APPEND_RESULT: u32 = 1;

/// AppendRowsResponse: the error, a Status.
pub const ERROR: u32 = 2;

/// AppendResult: the offset of the first row, an Int64Value.
pub const RESULT_OFFSET: u32 = 1;

/// Status: the code.
pub const CODE: u32 = 1;

/// Status: the text.
pub const MESSAGE: u32 = 2;
