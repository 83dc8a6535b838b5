//! Header blocks of HPACK both ways (RFC 7541), as HTTP/2 carries them.
//!
//! - [`Decoder`] keeps the dynamic table of one direction of a connection, and gives the fields of
//!   block after block; [`BlockFault`] says why a block gives none.
//! - [`reads_the_grammar`] is the law that the function which reads a block in the contracts answers
//!   exactly where the grammar of the standard holds.
//! - [`write_block`] spells a list of fields as this server does.
//! - [`Field`] and [`FieldList`] are what both speak of.
#![tactic(auto)]

mod decoder;
mod dynamic_table;
mod faults;
mod fields;
mod laws;
mod listed;
mod reading;
mod sizes;
mod static_table;
mod strings;
mod writing;

pub use decoder::Decoder;
pub use faults::BlockFault;
pub use fields::{Field, FieldList};
pub use laws::reads_the_grammar;
pub use writing::write_block;
