//! Laws of the Storage Write API's messages: what `encode` writes of a message, in fewer than 2^32
//! bytes, `decode` reads back as the same message.
//!
//! They hold of the messages of [`write_msgs`] by which a write stream is got, finalized and flushed,
//! and by which write streams are committed, and of the messages within these; of the AppendRows
//! messages [`write_msgs`] says it itself. Nothing is asked of a message but what its types say: its
//! texts are UTF-8, and its numbers have 64 or 32 bits with a sign (`specs/RoundTrip`).
//!
//! Each law is the contract of a function that does nothing.
#![tactic(auto)]

mod laws;

pub use laws::{
    commit_parts_read_back, commits_read_back, finalizes_read_back, flushes_read_back,
    gets_read_back,
};
