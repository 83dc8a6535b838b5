//! One AppendRows call that goes on, message by message, over the tables (AppendRows of the BigQueryWrite service).
//!
//! [`AppendCall`] remembers what the messages of a call have named, the last write stream and the last writer schema,
//! also where a message was refused. [`AppendCall::message`] answers one message by its plan (`append_plan` of
//! call_plans): it reads the message, remembers what it names, finds the table of the write stream, reads the rows by
//! the writer schema, takes one turn at the table and tells the reply. A message that can't be read ends the call; any
//! other has one response, which carries the write stream that the message itself names.
//!
//! A writer schema is bound to the columns of its table once, and kept bound while the call stays with that descriptor
//! and with tables of those columns.
#![tactic(auto)]

mod answers;
mod appends;
mod bound;
mod calls;
mod requests;

pub use calls::AppendCall;
