//! Read sessions, restrictions and ReadRows.

ghost use Rattle.std.specs.Prelude.{◌≡◌, pos, neg_ℤ};
ghost use Rattle.call_plans.specs.declared.sessions.TheConstants.{AVRO, FIRST_SECOND, LAST_SECOND, LAST_NANO};
ghost use Rattle.filter.specs.declared.limits.TheConstants.{MAX_BYTES, MAX_LITERALS, MAX_DEPTH};
ghost use Rattle.read_cursor.specs.declared.found.TheConstants.{MAX_CHUNK_ROWS};
ghost use Rattle.row_responses.specs.declared.limits.TheConstants.{MAX_RESPONSE_ROWS, MAX_RESPONSE_BYTES};
ghost use Rattle.split_tree.specs.declared.node.TheConstants.{MOST_ROOTS, ROOTS_UNASKED, MOST_NODES};

/// A session begins with 100 read streams at most, and 4 where it asks for no number; with those that splits make it has
/// 4,096 at most: limits of this server. `DataFormat.AVRO` is 1. A snapshot's time is a Timestamp of protobuf, from
/// 0001-01-01T00:00:00Z to 9999-12-31T23:59:59.999999999Z: seconds since 1970-01-01 and nanoseconds.
pub fn sessions_in_figures()
    ensures roots { MOST_ROOTS ≡ 100 }
    ensures unasked { ROOTS_UNASKED ≡ 4 }
    ensures nodes { MOST_NODES ≡ 4096 }
    ensures avro { AVRO ≡ pos 1 }
    ensures first { FIRST_SECOND ≡ neg_ℤ (pos 62135596800) }
    ensures last { LAST_SECOND ≡ pos 253402300799 }
    ensures nano { LAST_NANO ≡ pos 999999999 }
{}

/// A restriction has 16,384 bytes, 1,024 literals and 64 groups within one another at most: limits of this server.
pub fn restrictions_in_figures()
    ensures bytes { MAX_BYTES ≡ 16384 }
    ensures literals { MAX_LITERALS ≡ 1024 }
    ensures depth { MAX_DEPTH ≡ 64 }
{}

/// A response of ReadRows has 1,024 rows at most, and 1 MB of their data or one row alone: limits of this server.
pub fn reading_in_figures()
    ensures rows { MAX_RESPONSE_ROWS ≡ 1024 }
    ensures bytes { MAX_RESPONSE_BYTES ≡ 1048576 }
    ensures chunk { MAX_CHUNK_ROWS ≡ 1024 }
{}
