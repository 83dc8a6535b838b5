//! A descriptor.

ghost use Rattle.std.specs.Prelude.{◌≡◌, ◌^◌, ◌<◌, ◌≤◌, ◌+◌, All, map, length, IfOk, IsTrue};
ghost use Rattle.proto_fields.specs.Spans.{part as part_of, records_in, IsWithin};
ghost use Rattle.row_descriptor.specs.Descriptor.{field_of, field_in, fields_in, all_of, descriptor_of, are_descriptor};
ghost use Rattle.row_descriptor.specs.Faults.{Parses};

use crate::distinct::{have_distinct_names, have_distinct_numbers};
use crate::faults::DescriptorFault;
use crate::field::DescriptorField;
use crate::parts::{has_good_name, is_repeated, name_in, number_in, type_in};
use outside::{Memory, Span, Text};
use proto_fields::{Field, all_bytes, fields, part};
use std::alloc::Global;
use std::marker::Model;

/// DescriptorProto.field.
const FIELD: u32 = 2;

/// The fields of a row's message. There is at least one, and no two have one number, or one name without ASCII case.
#[derive(Drop)]
pub struct Descriptor {
    fields: Vec<DescriptorField>,
}

impl Model for Descriptor {
    ghost use Rattle.std.specs.Prelude.{List, IsTrue};
    ghost use Rattle.row_descriptor.specs.declared.field.DescriptorField.{DescriptorField};
    ghost use Rattle.row_descriptor.specs.Descriptor.{are_descriptor};

    ghost Value = { List DescriptorField };

    ghost view = { λ d. d.fields.items };

    ghost invariant = { λ d. IsTrue (are_descriptor d.fields.items) };
}

impl Descriptor {
    /// Reads a DescriptorProto. Its bytes, fewer than 2^32, are those of the message, and what it doesn't use is
    /// passed over, but bytes that are no message.
    pub fn parse(alloc: Global, bytes: &[u8]) -> Result<Descriptor, DescriptorFault>
        requires { length bytes.now < 2 ^ 32 }
        ensures { Parses (λ d. d) result (descriptor_of bytes.now) }
    {
        let records = fields(alloc, bytes)?;
        let fields = described_fields(alloc, bytes, &records)?;
        Ok(Descriptor { fields })
    }

    /// The fields, in the descriptor's order.
    pub fn fields(&self) -> &[DescriptorField]
        ensures value { result.now ≡ self.now }
        ensures good { IsTrue (are_descriptor result.now) }
    {
        self.fields.as_slice()
    }
}

// The fields that the fields of a DescriptorProto describe.
#[tactic(auto, unfolding(crate::specs::Descriptor::fields_in))]
fn described_fields(
    alloc: Global,
    bytes: &[u8],
    records: &[Field],
) -> Result<Vec<DescriptorField>, DescriptorFault>
    requires small { length bytes.now < 2 ^ 32 }
    requires within { All (IsWithin (length bytes.now)) records.now }
    ensures value { Parses (λ found. found.items) result (fields_in (records_in bytes.now records.now)) }
    ensures good { IfOk result (λ found. IsTrue (are_descriptor found.items)) }
{
    let spans = all_bytes(alloc, records, FIELD)?;
    let found = fields_at(alloc, bytes, &spans)?;
    if has_good_name(bytes, records) && are_good(alloc, &found)? {
        Ok(found)
    } else {
        Err(DescriptorFault::BadDescriptor)
    }
}

// Whether there is a field, and they differ in numbers and names.
fn are_good(alloc: Global, fields: &[DescriptorField]) -> Result<bool, Memory>
    ensures { IfOk result (λ yes. yes ≡ are_descriptor fields.now) }
{
    Ok(
        !fields.is_empty()
            && have_distinct_numbers(alloc, fields)?
            && have_distinct_names(alloc, fields)?,
    )
}

// The fields whose messages stand at these places.
fn fields_at(
    alloc: Global,
    bytes: &[u8],
    spans: &[Span],
) -> Result<Vec<DescriptorField>, DescriptorFault>
    requires small { length bytes.now < 2 ^ 32 }
    requires within { All (λ s. s.start + s.len ≤ length bytes.now) spans.now }
    ensures { Parses (λ found. found.items) result (all_of (map field_of (map (part_of bytes.now) spans.now))) }
{
    let mut found = Vec::with_capacity(alloc, spans.len())?;
    for span in spans {
        found.push(field_at(alloc, part(bytes, *span))?)?;
    }
    Ok(found)
}

// The field of a FieldDescriptorProto.
fn field_at(alloc: Global, bytes: &[u8]) -> Result<DescriptorField, DescriptorFault>
    requires { length bytes.now < 2 ^ 32 }
    ensures { Parses (λ field. field) result (field_of bytes.now) }
{
    let records = fields(alloc, bytes)?;
    field_among(alloc, bytes, &records)
}

// The field that the fields of a FieldDescriptorProto describe.
#[tactic(auto, unfolding(crate::specs::Descriptor::field_in))]
fn field_among(
    alloc: Global,
    bytes: &[u8],
    records: &[Field],
) -> Result<DescriptorField, DescriptorFault>
    requires { All (IsWithin (length bytes.now)) records.now }
    ensures { Parses (λ field. field) result (field_in (records_in bytes.now records.now)) }
{
    let (Some(name), Some(number), Some(field_type)) = (
        name_in(bytes, records),
        number_in(records),
        type_in(records),
    ) else {
        return Err(DescriptorFault::BadDescriptor);
    };
    Ok(DescriptorField {
        name: Text::of(alloc, name)?,
        number,
        is_repeated: is_repeated(records),
        field_type,
    })
}
