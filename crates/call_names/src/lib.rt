//! What the messages of every call have in common: the tables and streams that they name, and the answer to one that can't
//! be read.
//!
//! [`find`] finds a table by its name, [`table_of`], [`name_of`], [`project_of`] and [`read_name_of`] read names,
//! [`ref_of`] and [`stream_text`] say a write stream as its table and as a reply has it, [`node_of`] finds the table of a
//! read stream; [`unreadable`] is the status of a message that can't be read.
#![tactic(auto)]

mod faulty;
mod names;
mod nodes;

pub use faulty::unreadable;
pub use names::{find, name_of, ref_of, stream_text, table_of};
pub use nodes::{node_of, project_of, read_name_of};
