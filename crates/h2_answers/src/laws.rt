//! Laws of the bytes of replies, and of what lets DATA go.

ghost use Rattle.h2_answers.specs.Laws.{RepliesKeepTheirBytes, DataGoesFromTenBytes};

/// Replies that are written by and by: what waits is what waited less the bytes written, a reply adds its bytes at the
/// end, two steps are one, and a reply may be given before or after bytes of the earlier ones are written.
pub fn replies_keep_their_bytes()
    ensures { RepliesKeepTheirBytes }
{}

/// DATA of a stream are due and fit exactly where no HEADERS of it wait before them, a byte waits, its window and the
/// connection's are above 0, and there is room for ten bytes: a header and one byte.
pub fn data_goes_from_ten_bytes()
    ensures { DataGoesFromTenBytes }
{}
