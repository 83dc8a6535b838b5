//! What the fields of a message say, one value at a time.

ghost use Rattle.std.specs.Prelude.{◌≡◌, ◌^◌, ◌<◌, All, List, ℕ, length};
ghost use Rattle.proto_fields.specs.Chain.{Gives};
ghost use Rattle.proto_fields.specs.Selection.{varints_of, last_of};
ghost use Rattle.proto_fields.specs.Spans.{records_in, IsWithin};
ghost use Rattle.row_descriptor.specs.Descriptor.{low_bits, number_in, name_in, type_in, utf8_of, is_repeated, has_good_name};

use crate::field::{FieldType, LABEL_REPEATED, MAX_NUMBER};
use proto_fields::{Field, last_bytes, last_varint, part};

/// DescriptorProto.name, and FieldDescriptorProto.name.
const NAME: u32 = 1;
/// FieldDescriptorProto.number.
const NUMBER: u32 = 3;
/// FieldDescriptorProto.label.
const LABEL: u32 = 4;
/// FieldDescriptorProto.type.
const TYPE: u32 = 5;

// The low 32 bits, which are the value of an int32 and of an enum.
fn low_bits(varint: u64) -> u32
    ensures { result ≡ low_bits varint }
{
    (varint % (1 << 32)) as u32
}

fn utf8(bytes: &[u8]) -> Option<&str>
    ensures { Gives (λ s. s.now) result (utf8_of bytes.now) }
{
    match str::from_utf8(bytes) {
        Ok(text) => Some(text),
        Err(_) => None,
    }
}

/// The name, where there is one and the last is UTF-8.
pub fn name_in<'a>(bytes: &'a [u8], records: &[Field]) -> Option<&'a str>
    requires { All (IsWithin (length bytes.now)) records.now }
    ensures { Gives (λ s. s.now) result (name_in (records_in bytes.now records.now)) }
{
    let span = last_bytes(records, NAME)?;
    utf8(part(bytes, span))
}

/// Whether the last name is UTF-8, or there is none.
pub fn has_good_name(bytes: &[u8], records: &[Field]) -> bool
    requires { All (IsWithin (length bytes.now)) records.now }
    ensures { result ≡ has_good_name (records_in bytes.now records.now) }
{
    match last_bytes(records, NAME) {
        Some(span) => utf8(part(bytes, span)).is_some(),
        None => true,
    }
}

/// The field's number, where there is one in range.
pub fn number_in(records: &[Field]) -> Option<u32>
    ensures { (bytes : List ℕ) → result ≡ number_in (records_in bytes records.now) }
{
    let number = low_bits(last_varint(records, NUMBER)?);
    if 1 <= number && number <= MAX_NUMBER {
        Some(number)
    } else {
        None
    }
}

/// Whether the field is repeated.
pub fn is_repeated(records: &[Field]) -> bool
    ensures { (bytes : List ℕ) → result ≡ is_repeated (last_of (varints_of 4 (records_in bytes records.now))) }
{
    match last_varint(records, LABEL) {
        Some(label) => low_bits(label) == LABEL_REPEATED,
        None => false,
    }
}

/// The field's type, where there is one.
pub fn type_in(records: &[Field]) -> Option<FieldType>
    ensures { (bytes : List ℕ) → result ≡ type_in (records_in bytes records.now) }
{
    let number = last_varint(records, TYPE)?;
    Some(FieldType::of(low_bits(number)))
}
