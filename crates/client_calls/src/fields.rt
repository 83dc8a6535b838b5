//! The header fields of a request.

ghost use Rattle.std.specs.Prelude.{◌≡◌, IfOk};
ghost use Rattle.grpc_meta.specs.Answer.{field};
ghost use Rattle.client_calls.specs.Request.{request_fields};

use grpc_meta::Method;
use hpack_blocks::Field;
use outside::{Blob, Memory};
use std::alloc::Global;

/// A field of these texts.
fn field(alloc: Global, name: &str, value: &str) -> Result<Field, Memory>
    ensures { IfOk result (λ f. f ≡ field name.now value.now) }
{
    Ok(Field {
        name: Blob::of(alloc, name.as_bytes())?,
        value: Blob::of(alloc, value.as_bytes())?,
    })
}

/// The fields that ask for the method.
#[tactic(auto, unfolding(crate::specs::Request::request_fields))]
pub(crate) fn request_fields(alloc: Global, method: Method) -> Result<Vec<Field>, Memory>
    ensures { IfOk result (λ fields. fields.items ≡ request_fields method) }
{
    let mut fields = Vec::with_capacity(alloc, 5)?;
    fields.push(field(alloc, ":method", "POST")?)?;
    fields.push(field(alloc, ":scheme", "http")?)?;
    fields.push(field(alloc, ":path", method.path())?)?;
    fields.push(field(alloc, "te", "trailers")?)?;
    fields.push(field(alloc, "content-type", "application/grpc")?)?;
    Ok(fields)
}
