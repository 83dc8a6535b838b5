//! Numbers within names.

ghost use Rattle.std.specs.Prelude.{◌≡◌, if◌then◌else◌, decimal};
ghost use Rattle.std.specs.Str.{bytes_eq};
ghost use Rattle.resource_names.specs.Number.{number_of};

use itoa::Buffer;

/// Whether a text is the decimal of a number.
fn is_decimal(number: u32, text: &str) -> bool
    ensures { result ≡ bytes_eq (decimal number) text.now }
{
    let mut buffer = Buffer::new();
    buffer.format(number) == text
}

/// The number, where the text is its decimal.
fn spelled(number: u32, text: &str) -> Option<u32>
    ensures { result ≡ (if bytes_eq (decimal number) text.now then Some number else None) }
{
    if is_decimal(number, text) {
        Some(number)
    } else {
        None
    }
}

/// The number below 2^32 that a text is the decimal of, without a sign or a leading zero.
pub(crate) fn number_of(text: &str) -> Option<u32>
    ensures { result ≡ number_of text.now }
{
    match text.parse::<u32>() {
        Ok(number) => spelled(number, text),
        Err(_) => None,
    }
}
