//! The numbers, days and instants that a cell can hold. Days and instants are those of the years 0001 to 9999 of the
//! proleptic Gregorian calendar.

/// The least value of INT64.
pub const LEAST_INT64: i64 = i64::MIN;

/// The greatest value of INT64.
pub const GREATEST_INT64: i64 = i64::MAX;

/// 0001-01-01, in days since 1970-01-01.
pub const FIRST_DAY: i32 = -719_162;

/// 9999-12-31, in days since 1970-01-01.
pub const LAST_DAY: i32 = 2_932_896;

/// 0001-01-01 00:00:00 UTC, in microseconds since 1970-01-01 00:00:00 UTC.
pub const FIRST_INSTANT: i64 = -62_135_596_800_000_000;

/// The last microsecond of 9999-12-31 UTC, in microseconds since 1970-01-01 00:00:00 UTC.
pub const LAST_INSTANT: i64 = 253_402_300_799_999_999;
