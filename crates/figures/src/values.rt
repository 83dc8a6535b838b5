//! Columns and their values.

ghost use Rattle.std.specs.Prelude.{◌≡◌, pos, neg_ℤ};
ghost use Rattle.column_types.specs.declared.column.TheConstants.{MAX_NAME_BYTES};
ghost use Rattle.column_types.specs.declared.schema.TheConstants.{MAX_COLUMNS};
ghost use Rattle.column_types.specs.declared.ranges.TheConstants.{LEAST_INT64, GREATEST_INT64, FIRST_DAY, LAST_DAY, FIRST_INSTANT, LAST_INSTANT};

/// A table has 256 columns at most, and a column's name 128 bytes: limits of this server.
pub fn columns_in_figures()
    ensures columns { MAX_COLUMNS ≡ 256 }
    ensures name { MAX_NAME_BYTES ≡ 128 }
{}

/// INT64 of GoogleSQL is -2^63 to 2^63 - 1.
pub fn numbers_in_figures()
    ensures least { LEAST_INT64 ≡ neg_ℤ (pos 9223372036854775808) }
    ensures greatest { GREATEST_INT64 ≡ pos 9223372036854775807 }
{}

/// DATE of GoogleSQL is 0001-01-01 to 9999-12-31, here in days since 1970-01-01: 719,162 before it and 2,932,896 behind.
pub fn days_in_figures()
    ensures first { FIRST_DAY ≡ neg_ℤ (pos 719162) }
    ensures last { LAST_DAY ≡ pos 2932896 }
{}

/// TIMESTAMP of GoogleSQL is the same days, in microseconds since 1970-01-01 00:00:00 UTC: from the first of 0001-01-01
/// to the last of 9999-12-31.
pub fn instants_in_figures()
    ensures first { FIRST_INSTANT ≡ neg_ℤ (pos 62135596800000000) }
    ensures last { LAST_INSTANT ≡ pos 253402300799999999 }
{}
