//! The number that a varint holds.

ghost use Rattle.std.specs.Prelude.{◌≡◌, Some, None, if◌then◌else◌};
ghost use Rattle.column_types.specs.Row.{is_between};
ghost use Rattle.row_decode.specs.Number.{low_32, number_of, zig_zag};

use column_types::{GREATEST_INT64, LEAST_INT64};
use row_descriptor::FieldType;

// The low 32 bits.
fn low_32(varint: u64) -> u32
    ensures { result ≡ low_32 varint }
{
    (varint % (1 << 32)) as u32
}

// The number of which this is the zig-zag form.
fn zig_zag(number: u64) -> i64
    ensures { result ≡ zig_zag number }
{
    let half = (number / 2) as i64;
    if number % 2 == 0 { half } else { -1 - half }
}

/// The number that a varint of this type of field holds, or None where it has more than 64 bits with its sign.
pub fn number_of(field_type: FieldType, varint: u64) -> Option<i64>
    ensures { let z = number_of field_type varint in result ≡ (if is_between LEAST_INT64 GREATEST_INT64 z then Some z else None) }
{
    match field_type {
        FieldType::Uint64 => i64::try_from(varint).ok(),
        FieldType::Int32 | FieldType::Enum => Some(low_32(varint).cast_signed() as i64),
        FieldType::Uint32 => Some(low_32(varint) as i64),
        FieldType::Sint32 => Some(zig_zag(low_32(varint) as u64)),
        FieldType::Sint64 => Some(zig_zag(varint)),
        _ => Some(varint.cast_signed()),
    }
}
