//! What a message of an AppendRows call is answered over a table.
//!
//! A message may name a writer schema, which counts for it and for those behind it, and carries rows. [`bind_writer`]
//! makes of a writer schema how rows are read, or the cause for which none can be. [`answer_rows`] appends the rows of
//! a message to a table and gives its [`AppendRowsResponse`](write_msgs::AppendRowsResponse); [`refused`] and [`told`]
//! give that of a refusal and of a table's reply, with their codes and texts.
//! The definition of the whole stands in `specs/Message`: the response to a message, and the table behind it.
#![tactic(auto)]

mod appends;
mod responses;
mod texts;
mod writers;

pub use appends::{Asker, NoResponse, answer_rows, prepare};
pub use responses::{FIELDS_ERROR, refused, told, told_without_rows};
pub use texts::{MAX_TEXT_BYTES, SHOWN_CHARACTERS, cause_text};
pub use writers::{Writer, bind_writer};
