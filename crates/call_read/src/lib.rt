//! The calls of one message, answered over the tables by their plans (call_plans).
//!
//! [`create`] answers CreateWriteStream, [`get`] GetWriteStream, [`flush`] FlushRows, [`finalise`] FinalizeWriteStream,
//! [`commit`] BatchCommitWriteStreams, [`create_session`] CreateReadSession, [`split`] SplitReadStream and [`read`] ReadRows.
//! Each reads the message, finds the table that it names, takes a turn there and tells the reply, or what it has seen. Each
//! answer is the one of its plan at a point of the table's history; where memory is wanting it is lost, and nothing or all
//! but the answer was done. [`call`] answers a call by its method.
#![tactic(auto)]

mod answers;
mod bodies;
mod calls;
mod choosing;
mod columns;
mod committed;
mod committing;
mod creating;
mod deciding;
mod described;
mod finalising;
mod flushing;
mod getting;
mod moments;
mod reading;
mod sessions;
mod snapshots;
mod splitting;
mod streams;
mod wanting;

pub use bodies::{RowsAnswer, rows};
pub use calls::call;
pub use committing::commit;
pub use creating::create;
pub use finalising::finalise;
pub use flushing::flush;
pub use getting::get;
pub use reading::read;
pub use sessions::create_session;
pub use splitting::split;
