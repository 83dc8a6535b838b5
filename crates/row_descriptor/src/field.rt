//! One field that a descriptor describes.

ghost use Rattle.std.specs.Prelude.{◌≡◌};
ghost use Rattle.column_types.specs.declared.column.Kind.{Kind};
ghost use Rattle.row_descriptor.specs.Descriptor.{type_of};
ghost use Rattle.row_descriptor.specs.Types.{accepts as is_accepted};

use column_types::Kind;
use outside::Text;

/// The greatest number of a field.
pub const MAX_NUMBER: u32 = 536_870_911;

/// LABEL_REPEATED of FieldDescriptorProto.Label.
pub(crate) const LABEL_REPEATED: u32 = 3;

/// FieldDescriptorProto.Type, as far as a column can be read from it.
#[derive(Clone, Copy, Debug, PartialEq, Eq)]
pub enum FieldType {
    /// TYPE_INT64, 3.
    Int64,
    /// TYPE_UINT64, 4.
    Uint64,
    /// TYPE_INT32, 5.
    Int32,
    /// TYPE_BOOL, 8.
    Bool,
    /// TYPE_STRING, 9.
    Str,
    /// TYPE_BYTES, 12.
    Bytes,
    /// TYPE_UINT32, 13.
    Uint32,
    /// TYPE_ENUM, 14.
    Enum,
    /// TYPE_SINT32, 17.
    Sint32,
    /// TYPE_SINT64, 18.
    Sint64,
    /// Any other number. No column is read from it.
    Other,
}

impl FieldType {
    /// The type of this number.
    pub(crate) fn of(number: u32) -> FieldType
        ensures { result ≡ type_of number }
    {
        match number {
            3 => FieldType::Int64,
            4 => FieldType::Uint64,
            5 => FieldType::Int32,
            8 => FieldType::Bool,
            9 => FieldType::Str,
            12 => FieldType::Bytes,
            13 => FieldType::Uint32,
            14 => FieldType::Enum,
            17 => FieldType::Sint32,
            18 => FieldType::Sint64,
            _ => FieldType::Other,
        }
    }
}

/// A field of the message that a descriptor describes.
#[derive(Drop)]
pub struct DescriptorField {
    /// The field's name, which can be empty.
    pub name: Text,
    /// The field's number, 1 to 536,870,911.
    pub number: u32,
    /// Whether its label is LABEL_REPEATED.
    pub is_repeated: bool,
    /// The field's type.
    pub field_type: FieldType,
}

/// Whether a column of this kind is read from fields of this type.
pub(crate) fn accepts(kind: Kind, field_type: FieldType) -> bool
    ensures { result ≡ is_accepted kind field_type }
{
    use FieldType::*;
    match kind {
        Kind::Int64 => matches!(
            field_type,
            Int64 | Uint64 | Int32 | Uint32 | Enum | Sint32 | Sint64
        ),
        Kind::Bool => matches!(field_type, Bool),
        Kind::Str => matches!(field_type, Str),
        Kind::Bytes => matches!(field_type, Bytes | Str),
        Kind::Date => matches!(field_type, Int32 | Int64 | Sint32 | Sint64),
        Kind::Timestamp => matches!(field_type, Int64 | Int32 | Uint32 | Sint64),
    }
}
