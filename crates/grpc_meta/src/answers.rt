//! The header fields that the server writes.

ghost use Rattle.std.specs.Prelude.{◌≡◌, ◌||◌, ◌==◌, ◌++◌, ◌-◌, IsTrue, IfOk, OnOk, length, take, drop, codes, decimal, string_bytes};
ghost use Rattle.std.specs.List.{flat_map};
ghost use Rattle.grpc_meta.specs.Answer.{field, response_head, http_only, octet_text, end_text, behind_text, message_value, trailers};

use hpack_blocks::Field;
use itoa::Buffer;
use outside::{Blob, Memory, Text};
use percent_encoding::{AsciiSet, CONTROLS, ascii_set, percent_encode};
use std::alloc::Global;

/// The ASCII octets that are escaped in a message (gRPC over HTTP/2, Responses).
const ESCAPED: AsciiSet = ascii_set!(CONTROLS.add(b'%'));

/// Those that are escaped at either end: a value neither begins nor ends with a blank (RFC 9113,
/// section 8.2.1).
const ESCAPED_AT_ENDS: AsciiSet = ascii_set!(ESCAPED.add(b' '));

/// How a call ended.
#[derive(Drop)]
pub struct Status {
    /// The code of gRPC; 0 is OK.
    pub code: u32,
    /// Why, for people. It isn't sent where the code is 0.
    pub text: Text,
}

/// A field of these texts.
fn field(alloc: Global, name: &str, value: &str) -> Result<Field, Memory>
    ensures { IfOk result (λ f. f ≡ field name.now value.now) }
{
    Ok(Field {
        name: Blob::of(alloc, name.as_bytes())?,
        value: Blob::of(alloc, value.as_bytes())?,
    })
}

/// A field whose value is a number in decimal.
fn number_field(alloc: Global, name: &str, number: u32) -> Result<Field, Memory>
    ensures { IfOk result (λ f. f ≡ field name.now (decimal number)) }
{
    let mut buffer = Buffer::new();
    field(alloc, name, buffer.format(number))
}

/// The head of an answer: `:status` 200 and the content type of gRPC.
pub fn response_head(alloc: Global) -> Result<Vec<Field>, Memory>
    ensures { IfOk result (λ fields. fields.items ≡ response_head) }
{
    let mut fields = Vec::with_capacity(alloc, 2)?;
    fields.push(field(alloc, ":status", "200")?)?;
    fields.push(field(alloc, "content-type", "application/grpc")?)?;
    Ok(fields)
}

/// The answer of HTTP alone, which ends the stream: `:status` with a code of 405 (the method isn't
/// POST), 415 (the content isn't gRPC's) or 431 (the header list is too large).
pub fn http_only(alloc: Global, code: u16) -> Result<Vec<Field>, Memory>
    requires { IsTrue (code == 405 || code == 415 || code == 431) }
    ensures { IfOk result (λ fields. fields.items ≡ http_only code) }
{
    let mut fields = Vec::with_capacity(alloc, 1)?;
    fields.push(number_field(alloc, ":status", code as u32)?)?;
    Ok(fields)
}

/// Writes octets between the first and the last.
fn write_inner(out: &mut String, octets: &[u8]) -> Result<(), Memory>
    ensures { OnOk result (string_bytes out.new ≡ string_bytes out.old ++ flat_map octet_text octets.now) }
{
    percent_encode(octets, ESCAPED).append_to(out)?;
    Ok(())
}

/// Writes the first octet, or the last.
fn write_end(out: &mut String, octets: &[u8]) -> Result<(), Memory>
    ensures { OnOk result (string_bytes out.new ≡ string_bytes out.old ++ flat_map end_text octets.now) }
{
    percent_encode(octets, ESCAPED_AT_ENDS).append_to(out)?;
    Ok(())
}

/// Writes the octets behind the first.
#[tactic(auto, unfolding(crate::specs::Answer::behind_text))]
fn write_behind(out: &mut String, octets: &[u8]) -> Result<(), Memory>
    ensures { OnOk result (string_bytes out.new ≡ string_bytes out.old ++ behind_text octets.now) }
{
    let (inner, last) = octets.split_at(octets.len().saturating_sub(1));
    write_inner(out, inner)?;
    write_end(out, last)
}

/// The first octet, where there is one, and those behind it.
fn split_first(octets: &[u8]) -> (&[u8], &[u8])
    ensures first { result.0.now ≡ take 1 octets.now }
    ensures behind { result.1.now ≡ drop 1 octets.now }
{
    if octets.is_empty() {
        (octets, octets)
    } else {
        octets.split_at(1)
    }
}

/// The value of `grpc-message`.
#[tactic(auto, unfolding(crate::specs::Answer::message_value))]
fn message_value(alloc: Global, message: &[u8]) -> Result<Blob, Memory>
    ensures { IfOk result (λ value. value ≡ message_value message.now) }
{
    let (first, behind) = split_first(message);
    let mut out = String::with_capacity(alloc, message.len())?;
    write_end(&mut out, first)?;
    write_behind(&mut out, behind)?;
    Ok(Blob::from_vec(out.into_bytes()))
}

/// The field that carries the message of a status.
fn message_field(alloc: Global, text: &Text) -> Result<Field, Memory>
    ensures { IfOk result (λ f. f ≡ field (codes "grpc-message") (message_value text.now)) }
{
    Ok(Field {
        name: Blob::of(alloc, b"grpc-message")?,
        value: message_value(alloc, text.text().as_bytes())?,
    })
}

/// The trailers of an answer: `grpc-status` in decimal and, where it isn't 0, `grpc-message`.
///
/// The message is percent-encoded: octets outside 0x20 to 0x7E and `%`, and a blank at either end.
pub fn trailers(alloc: Global, status: &Status) -> Result<Vec<Field>, Memory>
    ensures { IfOk result (λ fields. fields.items ≡ trailers status.now) }
{
    let mut fields = Vec::with_capacity(alloc, 2)?;
    fields.push(number_field(alloc, "grpc-status", status.code)?)?;
    if status.code != 0 {
        fields.push(message_field(alloc, &status.text)?)?;
    }
    Ok(fields)
}
