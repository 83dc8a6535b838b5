//! Tables, their write streams and the clock.

ghost use Rattle.std.specs.Prelude.{◌≡◌, pos};
ghost use Rattle.links.specs.declared.clocks.TheConstants.{LATEST_READING as latest_of_clocks};
ghost use Rattle.turn_table.specs.declared.machine.TheConstants.{LATEST_READING as latest_of_turns};
ghost use Rattle.table_model.specs.declared.limits.TheConstants.{MAX_WEIGHT, ROW_OVERHEAD, COLUMN_OVERHEAD, MAX_ENTRIES, MAX_STREAMS, MAX_SESSIONS, SESSION_LIFETIME, LATEST_READING};
ghost use Rattle.table_model.specs.declared.replies.TheConstants.{STREAM_ALREADY_COMMITTED, STREAM_NOT_FOUND, INVALID_STREAM_TYPE, INVALID_STREAM_STATE};
ghost use Rattle.open_tables.specs.declared.tables.TheConstants.{MAX_TABLES};

/// What the tables hold at most, limits of this server: 8 tables; in each 256 MB of rows, where a row counts 32 bytes, 32
/// for each column and its own; 4,194,304 entries, 10,000 write streams and 4,096 read sessions.
pub fn tables_in_figures()
    ensures tables { MAX_TABLES ≡ 8 }
    ensures weight { MAX_WEIGHT ≡ 268435456 }
    ensures row { ROW_OVERHEAD ≡ 32 }
    ensures column { COLUMN_OVERHEAD ≡ 32 }
    ensures entries { MAX_ENTRIES ≡ 4194304 }
    ensures streams { MAX_STREAMS ≡ 10000 }
    ensures sessions { MAX_SESSIONS ≡ 4096 }
{}

/// A read session can be read for six hours, as BigQuery's can; a clock's latest reading is six hours before the end of
/// the year 9999. Both in microseconds, the reading since 1970-01-01 00:00:00 UTC; it is one for the clocks, the turns and
/// the tables.
pub fn clocks_in_figures()
    ensures lifetime { SESSION_LIFETIME ≡ pos 21600000000 }
    ensures tables { LATEST_READING ≡ pos 253402279199999999 }
    ensures clocks { latest_of_clocks ≡ LATEST_READING }
    ensures turns { latest_of_turns ≡ LATEST_READING }
{}

/// The codes of `StorageError.StorageErrorCode` that a commit names.
pub fn stream_errors_in_figures()
    ensures committed { STREAM_ALREADY_COMMITTED ≡ 2 }
    ensures not_found { STREAM_NOT_FOUND ≡ 3 }
    ensures kind { INVALID_STREAM_TYPE ≡ 4 }
    ensures state { INVALID_STREAM_STATE ≡ 5 }
{}
