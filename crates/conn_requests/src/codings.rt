//! The codings of messages that a call names.

ghost use Rattle.std.specs.Prelude.{◌≡◌, option_copied};
ghost use Rattle.std.specs.List.{find};
ghost use Rattle.std.specs.Str.{bytes_eq};
ghost use Rattle.grpc_meta.specs.Fields.{is_named};
ghost use Rattle.conn_requests.specs.Codings.{coding_field, is_identity, is_coded};

use hpack_blocks::Field;

fn is_text(octets: &[u8], text: &str) -> bool
    ensures { result ≡ bytes_eq octets.now text.now }
{
    octets == text.as_bytes()
}

/// The first field that names a coding of messages.
fn coding_field(fields: &[Field]) -> Option<&Field>
    ensures { option_copied result ≡ coding_field fields.now }
{
    fields
        .iter()
        .find(|field| is_text(field.name.bytes(), "grpc-encoding"))
}

fn is_identity(field: &Field) -> bool
    ensures { result ≡ is_identity field.now }
{
    is_text(field.value.bytes(), "identity")
}

/// Whether a request's fields name a coding for compressed messages.
#[tactic(auto, unfolding(crate::specs::Codings::is_coded))]
pub(crate) fn is_coded(fields: &[Field]) -> bool
    ensures { result ≡ is_coded fields.now }
{
    match coding_field(fields) {
        Some(field) => !is_identity(field),
        None => false,
    }
}
