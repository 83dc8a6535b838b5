//! The wire format of Protocol Buffers: a message as a list of fields, read and written.
//!
//! [`fields`] reads the fields of a message in one pass and copies no payload: a value of wire
//! type 2 is a [`Span`](outside::Span) of the message's bytes. The selectors then answer what a
//! message says of one field by its number: [`last_varint`] and [`last_bytes`] for a field that has
//! one value, [`all_bytes`] for a repeated one, [`merged`] for a message within the message, and
//! [`has`] for its presence. [`Out`] writes a message, with shortest varints, whose lengths are
//! [`varint_len`].
//!
//! The standard is the Protocol Buffers encoding guide. Groups, which are wire types 3 and 4, are
//! refused.
#![tactic(auto)]

mod faults;
mod field;
mod laws;
mod payloads;
mod places;
mod reading;
mod selecting;
mod tags;
mod varints;
mod writing;

pub use faults::FieldFault;
pub use field::{Field, Value};
pub use laws::{one_record_after_another, payloads_are_shorter, reads_back, varints_are_shortest};
pub use places::{last_tag, nth_tag};
pub use reading::fields;
pub use selecting::{all_bytes, has, last_bytes, last_varint, merged, part};
pub use varints::varint_len;
pub use writing::Out;
