//! The parts of a name.

ghost use Rattle.std.specs.Prelude.{◌≡◌, map, IfOk};
ghost use Rattle.std.specs.List.{list_all};
ghost use Rattle.resource_names.specs.Part.{has_part_len, is_named, is_part as is_part_of, is_part_byte as is_byte_of_part, parts_of};

use outside::Memory;
use std::alloc::Global;

/// The bytes of the longest part of a name.
pub const MAX_PART_BYTES: usize = 128;

/// The bytes of the longest name, which is that of a read stream. A longer text is no name, and isn't looked at.
pub const MAX_NAME_BYTES: usize = 551;

fn is_part_byte(byte: u8) -> bool
    ensures { result ≡ is_byte_of_part byte }
{
    byte.is_ascii_alphanumeric() || byte == b'_' || byte == b'-' || byte == b'.' || byte == b':'
}

fn are_part_bytes(bytes: &[u8]) -> bool
    ensures { result ≡ list_all is_byte_of_part bytes.now }
{
    bytes.iter().all(|b| is_part_byte(*b))
}

fn has_part_len(text: &str) -> bool
    ensures { result ≡ has_part_len text.now }
{
    1 <= text.len() && text.len() <= MAX_PART_BYTES
}

/// Whether a text is 1 to 128 bytes of ASCII letters, digits, `_`, `-`, `.` and `:`.
fn is_part(text: &str) -> bool
    ensures { result ≡ is_part_of text.now }
{
    has_part_len(text) && are_part_bytes(text.as_bytes())
}

/// Whether the first text is this word and the second a part.
pub(crate) fn is_named(word: &str, text: &str, part: &str) -> bool
    ensures { result ≡ is_named word.now text.now part.now }
{
    text == word && is_part(part)
}

/// The words and parts of a text, which stand between its slashes.
pub(crate) fn parts_of<'a>(alloc: Global, text: &'a str) -> Result<Vec<&'a str>, Memory>
    ensures { IfOk result (λ parts. map (λ p. p.now) parts.items ≡ parts_of text.now) }
{
    Ok(text.split('/').collect(alloc)?)
}
