//! Frames of HTTP/2, from any cutting of a client's stream, and the server's own spelling of them (RFC 9113 sections
//! 3.4, 4.1, 4.2 and 6).
//!
//! - [`Frame`] is a frame of one of the ten types of section 6, or of an unknown one; [`Pairs`] are its settings.
//! - [`FrameReader`] is fed the stream in pieces and answers [`Next`]: a frame, that more bytes are wanted, or the
//!   [`H2Fault`] of the first byte or frame that breaks a rule, which then stays.
//! - [`write_frame`] appends a frame to a vector. [`Header::put`] appends its first nine bytes alone, for a payload that
//!   is put together behind them; each frame is written through it.
//! - [`readings_agree`] is the law over every run of a reader: its frames are those of the whole stream.
//! - [`spellings_are_read`] are the laws between spellings, reading and writing.
//!
//! `specs/Spelled` says how each frame is spelled, `specs/Fault` which frames are refused, `specs/Reading` what a
//! reader answers, and `specs/Framing` what the frames of a stream are. docs/HTTP2.md has them as tables.
#![tactic(auto)]

mod fault;
mod frame;
mod header;
mod kind;
mod laws;
mod pairs;
mod payload;
mod preface;
mod reader;
mod writer;

pub use fault::H2Fault;
pub use frame::Frame;
pub use header::{END_HEADERS, END_STREAM, HEADER_LEN, Header, MAX_FRAME_SIZE};
pub use kind::Kind;
pub use laws::{readings_agree, spellings_are_read};
pub use pairs::{Pair, Pairs};
pub use reader::{FrameReader, Next};
pub use writer::write_frame;
