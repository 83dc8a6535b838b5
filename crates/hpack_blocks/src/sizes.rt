ghost use Rattle.std.specs.Prelude.{◌≡◌, ◌+◌, length};
ghost use Rattle.hpack_blocks.specs.Answers.{counted};
ghost use Rattle.hpack_blocks.specs.Table.{size_of};

use crate::fields::Field;

/// What a field of this name and this value counts in a table or a list: its octets and 32 (RFC
/// 7541, section 4.1).
pub fn octets_size(name: &[u8], value: &[u8]) -> u64
    ensures { result ≡ counted (length name.now + length value.now + 32) }
{
    (name.len() as u64)
        .saturating_add(value.len() as u64)
        .saturating_add(32)
}

/// What a field counts.
pub fn field_size(field: &Field) -> u64
    ensures { result ≡ counted (size_of field.now) }
{
    octets_size(field.name.bytes(), field.value.bytes())
}
