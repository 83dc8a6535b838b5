//! What the header fields of a request ask for.

ghost use Rattle.std.specs.Prelude.{◌≡◌, ◌&&◌, ◌<◌, not, nat_eq, length, option_copied, IfSome};
ghost use Rattle.std.specs.List.{list_any, find, position, starts_with};
ghost use Rattle.grpc_meta.specs.Fields.{is_named, is_bad, is_pseudo};
ghost use Rattle.grpc_meta.specs.Request.{has_late_pseudo, is_request_pseudo, has_unknown_pseudo, is_repeated, repeats_pseudo, is_missing, lacks_pseudo, has_empty_path, is_malformed, is_post, is_grpc_type, is_grpc, method_named, method_in};

use crate::fields::{is_bad, is_named, is_pseudo, is_text};
use crate::methods::{Method, method_at};
use hpack_blocks::Field;
use thiserror::Error;

/// Why the header fields of a request name no method. The first that holds is answered.
#[derive(Clone, Copy, Debug, PartialEq, Eq, Error)]
pub enum MetaFault {
    /// A field is bad; a pseudo-field stands behind another field, is repeated or is none of
    /// `:method`, `:scheme`, `:path` and `:authority`; one of the first three is missing; or `:path`
    /// is empty. RST_STREAM with PROTOCOL_ERROR answers it.
    #[error("malformed request")]
    Malformed,
    /// The method of HTTP isn't POST. `:status` 405 answers it.
    #[error("not POST")]
    NotPost,
    /// The first `content-type` is missing, or is neither `application/grpc` nor begins with
    /// `application/grpc+proto` or `application/grpc;`. `:status` 415 answers it.
    #[error("not gRPC with protobuf")]
    NotGrpc,
    /// The path is that of no method. `grpc-status` 12 answers it.
    #[error("unknown method")]
    UnknownPath,
}

fn has_bad(fields: &[Field]) -> bool
    ensures { result ≡ list_any is_bad fields.now }
{
    fields.iter().any(|field| is_bad(field))
}

fn has_pseudo(fields: &[Field]) -> bool
    ensures { result ≡ list_any is_pseudo fields.now }
{
    fields.iter().any(|field| is_pseudo(field))
}

fn has_named(fields: &[Field], name: &str) -> bool
    ensures { result ≡ list_any (is_named name.now) fields.now }
{
    fields.iter().any(|field| is_named(field, name))
}

/// The first field of a name.
fn field_named<'a>(fields: &'a [Field], name: &str) -> Option<&'a Field>
    ensures { option_copied result ≡ find (is_named name.now) fields.now }
{
    fields.iter().find(|field| is_named(field, name))
}

/// The place of the first field that is no pseudo-field.
fn regular_place(fields: &[Field]) -> Option<usize>
    ensures place { result ≡ position (λ f. not (is_pseudo f)) fields.now }
    ensures within { IfSome result (λ place. place < length fields.now) }
{
    fields.iter().position(|field| !is_pseudo(field))
}

/// The place of the first field of a name.
fn place_named(fields: &[Field], name: &str) -> Option<usize>
    ensures place { result ≡ position (is_named name.now) fields.now }
    ensures within { IfSome result (λ place. place < length fields.now) }
{
    fields.iter().position(|field| is_named(field, name))
}

#[tactic(auto, unfolding(crate::specs::Request::has_late_pseudo))]
fn has_late_pseudo(fields: &[Field]) -> bool
    ensures { result ≡ has_late_pseudo fields.now }
{
    match regular_place(fields) {
        Some(place) => has_pseudo(&fields[place + 1..]),
        None => false,
    }
}

#[tactic(auto, unfolding(crate::specs::Request::is_repeated))]
fn is_repeated(fields: &[Field], name: &str) -> bool
    ensures { result ≡ is_repeated name.now fields.now }
{
    match place_named(fields, name) {
        Some(place) => has_named(&fields[place + 1..], name),
        None => false,
    }
}

fn is_request_pseudo(field: &Field) -> bool
    ensures { result ≡ is_request_pseudo field.now }
{
    is_named(field, ":method")
        || is_named(field, ":scheme")
        || is_named(field, ":path")
        || is_named(field, ":authority")
}

fn is_unknown_pseudo(field: &Field) -> bool
    ensures { result ≡ (is_pseudo field.now && not (is_request_pseudo field.now)) }
{
    is_pseudo(field) && !is_request_pseudo(field)
}

#[tactic(auto, unfolding(crate::specs::Request::has_unknown_pseudo))]
fn has_unknown_pseudo(fields: &[Field]) -> bool
    ensures { result ≡ has_unknown_pseudo fields.now }
{
    fields.iter().any(|field| is_unknown_pseudo(field))
}

fn repeats_pseudo(fields: &[Field]) -> bool
    ensures { result ≡ repeats_pseudo fields.now }
{
    is_repeated(fields, ":method")
        || is_repeated(fields, ":scheme")
        || is_repeated(fields, ":path")
        || is_repeated(fields, ":authority")
}

#[tactic(auto, unfolding(crate::specs::Request::is_missing))]
fn is_missing(fields: &[Field], name: &str) -> bool
    ensures { result ≡ is_missing name.now fields.now }
{
    !has_named(fields, name)
}

fn lacks_pseudo(fields: &[Field]) -> bool
    ensures { result ≡ lacks_pseudo fields.now }
{
    is_missing(fields, ":method") || is_missing(fields, ":scheme") || is_missing(fields, ":path")
}

#[tactic(auto, unfolding(crate::specs::Request::has_empty_path))]
fn has_empty_path(fields: &[Field]) -> bool
    ensures { result ≡ has_empty_path fields.now }
{
    match field_named(fields, ":path") {
        Some(field) => field.value.is_empty(),
        None => false,
    }
}

#[tactic(auto, unfolding(crate::specs::Request::is_malformed))]
fn is_malformed(fields: &[Field]) -> bool
    ensures { result ≡ is_malformed fields.now }
{
    has_bad(fields)
        || has_late_pseudo(fields)
        || has_unknown_pseudo(fields)
        || repeats_pseudo(fields)
        || lacks_pseudo(fields)
        || has_empty_path(fields)
}

#[tactic(auto, unfolding(crate::specs::Request::is_post))]
fn is_post(fields: &[Field]) -> bool
    ensures { result ≡ is_post fields.now }
{
    match field_named(fields, ":method") {
        Some(field) => is_text(field.value.bytes(), "POST"),
        None => false,
    }
}

fn is_grpc_type(value: &[u8]) -> bool
    ensures { result ≡ is_grpc_type value.now }
{
    is_text(value, "application/grpc")
        || begins_with(value, "application/grpc+proto")
        || begins_with(value, "application/grpc;")
}

fn begins_with(value: &[u8], text: &str) -> bool
    ensures { result ≡ starts_with nat_eq value.now text.now }
{
    value.starts_with(text.as_bytes())
}

#[tactic(auto, unfolding(crate::specs::Request::is_grpc))]
fn is_grpc(fields: &[Field]) -> bool
    ensures { result ≡ is_grpc fields.now }
{
    match field_named(fields, "content-type") {
        Some(field) => is_grpc_type(field.value.bytes()),
        None => false,
    }
}

#[tactic(auto, unfolding(crate::specs::Request::method_named))]
fn method_named(fields: &[Field]) -> Option<Method>
    ensures { result ≡ method_named fields.now }
{
    match field_named(fields, ":path") {
        Some(field) => method_at(field.value.bytes()),
        None => None,
    }
}

/// The method that a request's header fields name, or the first reason why they name none, in the
/// order of [`MetaFault`] (RFC 9113, section 8.3; gRPC over HTTP/2, Requests). All other fields are
/// passed over.
pub fn method_of(fields: &[Field]) -> Result<Method, MetaFault>
    ensures { result ≡ method_in fields.now }
{
    if is_malformed(fields) {
        return Err(MetaFault::Malformed);
    }
    if !is_post(fields) {
        return Err(MetaFault::NotPost);
    }
    if !is_grpc(fields) {
        return Err(MetaFault::NotGrpc);
    }
    match method_named(fields) {
        Some(method) => Ok(method),
        None => Err(MetaFault::UnknownPath),
    }
}
