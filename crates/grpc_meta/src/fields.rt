//! Bad fields and the trailers of a client.

ghost use Rattle.std.specs.Prelude.{◌≡◌, ◌==◌, ◌-◌, length};
ghost use Rattle.std.specs.List.{list_any};
ghost use Rattle.std.specs.Str.{bytes_eq};
ghost use Rattle.grpc_meta.specs.Fields.{is_named, is_bad_in_name, is_bad_name, is_bad_in_value, is_blank, is_blank_at, is_bad_value, is_connection_name, is_bad_te, is_bad, is_pseudo, is_misplaced, is_good_trailer};

use hpack_blocks::Field;

/// Whether these are the octets of a text.
pub(crate) fn is_text(octets: &[u8], text: &str) -> bool
    ensures { result ≡ bytes_eq octets.now text.now }
{
    octets == text.as_bytes()
}

/// Whether a field has this name.
pub(crate) fn is_named(field: &Field, name: &str) -> bool
    ensures { result ≡ is_named name.now field.now }
{
    is_text(field.name.bytes(), name)
}

fn is_bad_in_name(octet: u8) -> bool
    ensures { result ≡ is_bad_in_name octet }
{
    octet <= b' ' || (b'A' <= octet && octet <= b'Z') || 0x7F <= octet
}

fn has_bad_in_name(name: &[u8]) -> bool
    ensures { result ≡ list_any is_bad_in_name name.now }
{
    name.iter().any(|octet| is_bad_in_name(*octet))
}

fn has_colon(octets: &[u8]) -> bool
    ensures { result ≡ list_any (λ b. b == 58) octets.now }
{
    octets.contains(&b':')
}

fn is_bad_name(name: &[u8]) -> bool
    ensures { result ≡ is_bad_name name.now }
{
    name.is_empty() || has_bad_in_name(name) || has_colon(&name[1..])
}

fn is_bad_in_value(octet: u8) -> bool
    ensures { result ≡ is_bad_in_value octet }
{
    octet == 0 || octet == b'\n' || octet == b'\r'
}

fn is_blank(octet: u8) -> bool
    ensures { result ≡ is_blank octet }
{
    octet == b' ' || octet == b'\t'
}

fn has_bad_in_value(value: &[u8]) -> bool
    ensures { result ≡ list_any is_bad_in_value value.now }
{
    value.iter().any(|octet| is_bad_in_value(*octet))
}

fn begins_blank(value: &[u8]) -> bool
    ensures { result ≡ is_blank_at value.now 0 }
{
    match value.first() {
        Some(octet) => is_blank(*octet),
        None => false,
    }
}

fn ends_blank(value: &[u8]) -> bool
    ensures { result ≡ is_blank_at value.now (length value.now - 1) }
{
    match value.last() {
        Some(octet) => is_blank(*octet),
        None => false,
    }
}

fn is_bad_value(value: &[u8]) -> bool
    ensures { result ≡ is_bad_value value.now }
{
    has_bad_in_value(value) || begins_blank(value) || ends_blank(value)
}

fn is_connection_name(name: &[u8]) -> bool
    ensures { result ≡ is_connection_name name.now }
{
    is_text(name, "connection")
        || is_text(name, "proxy-connection")
        || is_text(name, "keep-alive")
        || is_text(name, "transfer-encoding")
        || is_text(name, "upgrade")
}

fn is_bad_te(field: &Field) -> bool
    ensures { result ≡ is_bad_te field.now }
{
    is_named(field, "te") && !is_text(field.value.bytes(), "trailers")
}

/// Whether a field may stand in no message.
#[tactic(auto, unfolding(crate::specs::Fields::is_bad))]
pub(crate) fn is_bad(field: &Field) -> bool
    ensures { result ≡ is_bad field.now }
{
    is_bad_name(field.name.bytes())
        || is_bad_value(field.value.bytes())
        || is_connection_name(field.name.bytes())
        || is_bad_te(field)
}

/// Whether a field is a pseudo-field.
#[tactic(auto, unfolding(crate::specs::Fields::is_pseudo))]
pub(crate) fn is_pseudo(field: &Field) -> bool
    ensures { result ≡ is_pseudo field.now }
{
    match field.name.bytes().first() {
        Some(octet) => *octet == b':',
        None => false,
    }
}

/// Whether a field may stand in no trailers.
fn is_misplaced(field: &Field) -> bool
    ensures { result ≡ is_misplaced field.now }
{
    is_bad(field) || is_pseudo(field)
}

fn has_misplaced(fields: &[Field]) -> bool
    ensures { result ≡ list_any is_misplaced fields.now }
{
    fields.iter().any(|field| is_misplaced(field))
}

/// Whether the trailers of a client hold neither a bad field nor a pseudo-field (RFC 9113,
/// sections 8.2 and 8.1).
///
/// A field is bad where its name is empty, or has an octet of 0x00 to 0x20, 0x41 to 0x5A or 0x7F to
/// 0xFF, or a colon behind its first octet; where its value has a NUL, LF or CR, or begins or ends
/// with a blank or tab; where it belongs to a connection of HTTP/1.1; or where it is `te` with
/// another value than `trailers`.
pub fn trailer_is_good(fields: &[Field]) -> bool
    ensures { result ≡ is_good_trailer fields.now }
{
    !has_misplaced(fields)
}
