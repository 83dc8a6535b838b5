//! Parts of answers that are given to a connection later than they were decided (RFC 9113, gRPC over HTTP/2).
//!
//! An answer of many messages is given to the connection message by message, as the windows open, so that little of it
//! waits there. The connection then stands for another record of its frames than the one in which each part of an answer
//! stands where its call was decided. `specs/Deferred` says how the two are one: they have the same frames and the same
//! marks, but for parts on streams that the client had ended, and what was given is a front of what was decided.
//! `specs/Resting` says what is then left to write.
//!
//! The laws compute nothing:
//!
//! - [`rules_agree`]: no rule tells the two records apart, so that a frame due by what was given is due by what was decided.
//! - [`parts_are_deferred`]: how the two go on, frame by frame and part by part.
//! - [`dealings_go_on`]: so it is with a connection and what its caller has left to give.
//! - [`rests_where_blocked`]: where nothing that is due fits and no part may be given, all that was decided is written, but
//!   for what windows and resets hold up.
#![tactic(auto)]

mod laws;

pub use laws::{dealings_go_on, parts_are_deferred, rests_where_blocked, rules_agree};
