//! Laws of the header fields that the server writes, each the contract of a function that does nothing.

ghost use Rattle.grpc_meta.specs.Laws.{TrailersAreShort, HeadsAreShort, HttpIsShort};

/// The block of trailers has at most three octets for each of the status' text, and 150: escaping makes three of one.
pub fn trailers_are_short()
    ensures { TrailersAreShort }
{}

/// The block of an answer's head, and that of an answer of HTTP alone, has at most 150 octets.
pub fn heads_are_short()
    ensures head { HeadsAreShort }
    ensures http { HttpIsShort }
{}
