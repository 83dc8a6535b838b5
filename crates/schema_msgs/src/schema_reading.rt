//! The fields of a schema in the occurrences of one field of a message.

ghost use Rattle.std.specs.Prelude.{◌≡◌, ◌≤◌, ◌<◌, ◌+◌, ◌^◌, List, Result, Ok, length, map, All};
ghost use Rattle.proto_fields.specs.Message.{fields_of};
ghost use Rattle.proto_fields.specs.Spans.{IsWithin, part, records_in};
ghost use Rattle.write_msgs.specs.declared.faults.MsgFault.{MsgFault};
ghost use Rattle.write_msgs.specs.Faults.{ReadsAs};
ghost use Rattle.write_msgs.specs.Repeated.{items_from, listed, located};
ghost use Rattle.schema_msgs.specs.declared.nested_fields.NestedField.{NestedField};
ghost use Rattle.schema_msgs.specs.Schema.{fields_in, table_field_schema_of};
ghost use Rattle.schema_msgs.specs.Walk.{followed, laid_all};

use crate::field_lists::TableFieldSchemas;
use crate::nested_fields::NestedField;
use crate::walks::read_nested;
use outside::Span;
use proto_fields::{Field, all_bytes};
use std::alloc::Global;
use write_msgs::{MsgFault, both, in_nth_field, located, occurrence};

/// The fields so far and those of the nth occurrence, or the fault that counts.
fn with_nested(
    so_far: Result<Vec<NestedField>, MsgFault>,
    read: Result<Vec<NestedField>, MsgFault>,
    n: usize,
) -> Result<Vec<NestedField>, MsgFault>
    ensures { (before item : Result (List NestedField) MsgFault) → ReadsAs (listed so_far) before → ReadsAs (listed read) (located 0 item) → ReadsAs (listed result) (followed before (located n item)) }
{
    match both(so_far, located(read, n)) {
        Ok((mut fields, mut more)) => match fields.append(&mut more) {
            Ok(()) => Ok(fields),
            Err(_) => Err(MsgFault::Memory),
        },
        Err(fault) => Err(fault),
    }
}

/// The fields in the messages at these places, in the order of their outline.
fn nested_at(alloc: Global, bytes: &[u8], places: &[Span]) -> Result<Vec<NestedField>, MsgFault>
    requires small { length bytes.now < 2 ^ 32 }
    requires within { All (λ s. s.start + s.len ≤ length bytes.now) places.now }
    ensures { ReadsAs (listed result) (laid_all 0 (items_from table_field_schema_of 0 (map (part bytes.now) places.now))) }
{
    let mut read = Ok(Vec::new(alloc));
    for (n, place) in places.iter().enumerate() {
        read = with_nested(read, read_nested(alloc, occurrence(bytes, *place)), n);
    }
    read
}

/// The fields in the occurrences of the field of this number.
pub(crate) fn read_fields(
    alloc: Global,
    bytes: &[u8],
    found: &[Field],
    number: u32,
) -> Result<TableFieldSchemas, MsgFault>
    requires small { length bytes.now < 2 ^ 32 }
    requires message { fields_of bytes.now ≡ Ok (records_in bytes.now found.now) }
    requires within { All (IsWithin (length bytes.now)) found.now }
    ensures { ReadsAs result (fields_in table_field_schema_of number bytes.now (records_in bytes.now found.now)) }
{
    let places = all_bytes(alloc, found, number)?;
    match nested_at(alloc, bytes, places.as_slice()) {
        Ok(nested) => Ok(TableFieldSchemas::from_vec(nested)),
        Err(fault) => Err(in_nth_field(fault, bytes, number)),
    }
}
