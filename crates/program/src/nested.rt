ghost use Rattle.std.specs.Prelude.{◌≡◌, ◌≤◌, ◌+◌, [], length, map, sum_by, unwrap_or, IfOk, All};
ghost use Rattle.proto_fields.specs.Selection.{merged_of, payloads_of};
ghost use Rattle.proto_fields.specs.Spans.{IsWithin, part, records_in, payload_size};
ghost use Rattle.program.specs.Inner.{bytes_of};

use outside::{Blob, Memory, Span};
use proto_fields::{Field, all_bytes, merged, part};
use std::alloc::Global;

/// The bytes of a message within a message, all occurrences of its field joined.
#[derive(Drop)]
pub(crate) enum Inner<'a> {
    /// The field occurs once or not at all, so that no byte is copied.
    InPlace(&'a [u8]),
    /// The field occurs several times.
    Copied(Blob),
}

impl Inner<'_> {
    pub(crate) fn bytes(&self) -> &[u8]
        ensures { result.now ≡ bytes_of self.now }
    {
        match self {
            Inner::InPlace(bytes) => bytes,
            Inner::Copied(blob) => blob.bytes(),
        }
    }
}

/// The message in the field of this number, without a byte where there is none.
pub(crate) fn inner_message<'a>(
    alloc: Global,
    bytes: &'a [u8],
    fields: &[Field],
    number: u32,
) -> Result<Inner<'a>, Memory>
    requires within { All (IsWithin (length bytes.now)) fields.now }
    requires size { sum_by payload_size fields.now ≤ length bytes.now }
    ensures joined { IfOk result (λ found. bytes_of found ≡ unwrap_or (merged_of (payloads_of number (records_in bytes.now fields.now))) []) }
    ensures size { IfOk result (λ found. length (bytes_of found) ≤ length bytes.now) }
{
    let spans = all_bytes(alloc, fields, number)?;
    match spans.as_slice() {
        [] => Ok(Inner::InPlace(&[])),
        [span] => Ok(Inner::InPlace(part(bytes, *span))),
        _ => match merged(alloc, bytes, fields, number)? {
            Some(blob) => Ok(Inner::Copied(blob)),
            None => Ok(Inner::InPlace(&[])),
        },
    }
}

/// Copies of the runs of bytes at these places.
pub(crate) fn copies(alloc: Global, bytes: &[u8], spans: &[Span]) -> Result<Vec<Blob>, Memory>
    requires { All (λ s. s.start + s.len ≤ length bytes.now) spans.now }
    ensures { IfOk result (λ all. all.items ≡ map (part bytes.now) spans.now) }
{
    let mut all = Vec::with_capacity(alloc, spans.len())?;
    for span in spans {
        all.push(Blob::of(alloc, part(bytes, *span))?)?;
    }
    Ok(all)
}
