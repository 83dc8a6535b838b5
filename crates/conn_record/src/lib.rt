//! What the log of a link tells of a connection, and the laws of such a record (RFC 9113).
//!
//! A log has the bytes that came and went over a link, in the order of its calls. Its timeline is a record without marks:
//! the frames both ways, each where its last byte came or went. A connection stands for a record with marks for what its
//! caller gave; the laws here tie the two together, and say what follows where each frame that went was due.
//!
//! - [`logs_are_framed`]: how the bytes were cut into reads and writes is of no account, a piece that a reader of frames
//!   asked for is framed as it answers, and the frames that came are those that the bytes spell.
//! - [`frames_are_sent`]: frames that are written, in any pieces, go whole one after the other, and nothing else goes.
//! - [`frames_keep_order`]: what was written of answers, control frames and resets is a front of what is due, DATA stand
//!   within both windows, and no other kind of frame went.
//! - [`rest_is_quiet`]: where nothing that is due fits [`LEAST_ROOM`], all is written but what windows hold up.
//! - [`marks_change_nothing`]: a record with marks and its timeline have the same frames.
//!
//! Each is a law over the definitions in `specs/` and computes nothing. `specs/Timeline` frames a log byte by byte,
//! `specs/Places` says what holds at its places, `specs/Written` and `specs/Giving` what was due and what was open when
//! it went or was given, `specs/Quiet` what quiet is, and `specs/Marks` what a record's frames are.
#![tactic(auto)]

mod laws;
mod limits;

pub use laws::{
    frames_are_sent, frames_keep_order, logs_are_framed, marks_change_nothing, rest_is_quiet,
};
pub use limits::{LEAST_ROOM, LONGEST_BLOCK, MOST_BEHIND, WRITE_ROOM};
