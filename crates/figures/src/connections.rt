//! Connections and their frames.

ghost use Rattle.std.specs.Prelude.{◌≡◌};
ghost use Rattle.h2_frames.specs.declared.header.TheConstants.{HEADER_LEN, MAX_FRAME_SIZE, END_STREAM, END_HEADERS};
ghost use Rattle.h2_record.specs.declared.codes.TheConstants.{NO_ERROR, PROTOCOL_ERROR, FLOW_CONTROL_ERROR, STREAM_CLOSED, REFUSED_STREAM, COMPRESSION_ERROR, ENHANCE_YOUR_CALM};
ghost use Rattle.h2_record.specs.declared.limits.TheConstants.{FIRST_WINDOW, GREATEST_WINDOW, MOST_STREAMS, MOST_LIST_SIZE, MOST_WAITING, MOST_FLOOD, MOST_BLOCK_BYTES, MOST_CONTINUATIONS};

/// A frame's header has 9 bytes, its payload 16,384 at most, SETTINGS_MAX_FRAME_SIZE's least value; END_STREAM and
/// END_HEADERS are 0x1 and 0x4 (RFC 9113, sections 4.1, 4.2, 6.1 and 6.2).
pub fn frames_in_figures()
    ensures header { HEADER_LEN ≡ 9 }
    ensures payload { MAX_FRAME_SIZE ≡ 16384 }
    ensures stream { END_STREAM ≡ 1 }
    ensures headers { END_HEADERS ≡ 4 }
{}

/// A window begins with 65,535 bytes and has 2^31 - 1 at most (RFC 9113, sections 6.9.1 and 6.9.2). Limits of this server:
/// 100 streams at once, header lists of 16,384 bytes, header blocks of 65,536 bytes and 64 CONTINUATION frames, 64 replies
/// that wait on a stream before its credit is kept, and 100,000 frames that ask for nothing.
pub fn connections_in_figures()
    ensures first { FIRST_WINDOW ≡ 65535 }
    ensures greatest { GREATEST_WINDOW ≡ 2147483647 }
    ensures streams { MOST_STREAMS ≡ 100 }
    ensures list { MOST_LIST_SIZE ≡ 16384 }
    ensures waiting { MOST_WAITING ≡ 64 }
    ensures flood { MOST_FLOOD ≡ 100000 }
    ensures block { MOST_BLOCK_BYTES ≡ 65536 }
    ensures continuations { MOST_CONTINUATIONS ≡ 64 }
{}

/// The error codes of RFC 9113, section 7.
pub fn codes_in_figures()
    ensures none { NO_ERROR ≡ 0 }
    ensures protocol { PROTOCOL_ERROR ≡ 1 }
    ensures flow { FLOW_CONTROL_ERROR ≡ 3 }
    ensures closed { STREAM_CLOSED ≡ 5 }
    ensures refused { REFUSED_STREAM ≡ 7 }
    ensures compression { COMPRESSION_ERROR ≡ 9 }
    ensures calm { ENHANCE_YOUR_CALM ≡ 11 }
{}
