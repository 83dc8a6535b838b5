//! The descriptor of a row's message, and its binding to the columns of a table.
//!
//! Rows come as messages of a type that their writer describes by a DescriptorProto, as descriptor.proto of
//! Protocol Buffers has it. [`Descriptor::parse`] reads one, and [`bind`] finds for each column the field that has
//! its name without ASCII case. A [`Binding`] is all that reading a row asks for.
//!
//! Contracts see a `Descriptor` as the list of its fields, and a `Binding` as a list with one bound column for each
//! column of the table. The definitions stand in `specs/`: `Descriptor`, `Types` and `Binding`.
#![tactic(auto)]

mod bound;
mod descriptor;
mod distinct;
mod faults;
mod field;
mod parts;

pub use bound::{Binding, BoundColumn, Source, bind};
pub use descriptor::Descriptor;
pub use faults::{BindFault, DescriptorFault};
pub use field::{DescriptorField, FieldType, MAX_NUMBER};
