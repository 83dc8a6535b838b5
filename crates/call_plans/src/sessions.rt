//! The numbers of a request for a read session (CreateReadSessionRequest, google.protobuf.Timestamp).

/// DataFormat: the code of AVRO, the one format that is served.
pub const AVRO: i32 = 1;

/// 0001-01-01 00:00:00 UTC, in seconds since 1970-01-01 00:00:00 UTC: the first second of a Timestamp.
pub const FIRST_SECOND: i64 = -62_135_596_800;

/// 9999-12-31 23:59:59 UTC, in seconds since 1970-01-01 00:00:00 UTC: the last second of a Timestamp.
pub const LAST_SECOND: i64 = 253_402_300_799;

/// The most nanoseconds of a Timestamp behind its second.
pub const LAST_NANO: i32 = 999_999_999;
