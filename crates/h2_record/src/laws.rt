//! Laws of records on which each frame that went was due.

ghost use Rattle.h2_record.specs.Record.{Record};
ghost use Rattle.h2_record.specs.Laws.{AnswersAreKept, QuietWhereNoneFits};

/// Where each frame that went was due, what went on a stream, closed or not, is a front of what was given on it; and it
/// is all of it where what ends the answer went and nothing was given behind that.
pub fn answers_are_kept()
    ensures { (r : Record) → AnswersAreKept r }
{}

/// Where each frame that went was due, and none that is due fits 65,536 bytes, all control frames are out, and where no
/// connection error was met all resets are; on each live stream all that was given is out, but for octets that the
/// stream's window or the connection's holds up. Control frames have at most 21 bytes and resets 13, and each block of
/// fields that was given has at most 16,384.
pub fn quiet_where_none_fits()
    ensures { (r : Record) → QuietWhereNoneFits r }
{}
