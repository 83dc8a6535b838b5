ghost use Rattle.std.specs.Prelude.{◌≡◌, ◌<◌, ◌^◌, length, IfOk};
ghost use Rattle.program.specs.Reply.{accepted_bytes, refused_bytes, wrapped_bytes, result_bytes, status_bytes};

use crate::messages::{APPEND_RESULT, CODE, ERROR, MESSAGE, RESULT_OFFSET, VALUE};
use outside::{Blob, Memory};
use proto_fields::Out;
use std::alloc::Global;
use table_model::Refusal;

/// An Int64Value.
fn wrapped(alloc: Global, number: u64) -> Result<Blob, Memory>
    ensures value { IfOk result (λ b. b ≡ wrapped_bytes number) }
    ensures size { IfOk result (λ b. length b < 100) }
{
    let mut out = Out::new(alloc);
    if number != 0 {
        out.varint(alloc, VALUE, number)?;
    }
    Ok(out.finish())
}

/// An AppendResult with the offset of the first row.
fn append_result(alloc: Global, offset: u64) -> Result<Blob, Memory>
    ensures value { IfOk result (λ b. b ≡ result_bytes offset) }
    ensures size { IfOk result (λ b. length b < 200) }
{
    let value = wrapped(alloc, offset)?;
    let mut out = Out::new(alloc);
    out.bytes(alloc, RESULT_OFFSET, value.bytes())?;
    Ok(out.finish())
}

/// The AppendRowsResponse to an accepted append whose first row has this offset.
#[tactic(auto, unfolding(crate::specs::Reply::accepted_bytes))]
pub fn accepted_reply(alloc: Global, offset: u64) -> Result<Blob, Memory>
    ensures value { IfOk result (λ b. b ≡ accepted_bytes offset) }
    ensures size { IfOk result (λ b. length b < 2 ^ 32) }
{
    let value = append_result(alloc, offset)?;
    let mut out = Out::new(alloc);
    out.bytes(alloc, APPEND_RESULT, value.bytes())?;
    Ok(out.finish())
}

/// The Status of a refusal.
fn status(alloc: Global, refusal: &Refusal) -> Result<Blob, Memory>
    ensures value { IfOk result (λ b. b ≡ status_bytes refusal.now) }
    ensures size { IfOk result (λ b. length b < 100) }
{
    let mut out = Out::new(alloc);
    out.varint(alloc, CODE, refusal.code as u64)?;
    out.bytes(alloc, MESSAGE, refusal.why.phrase().as_bytes())?;
    Ok(out.finish())
}

/// The AppendRowsResponse to a refused append.
#[tactic(auto, unfolding(crate::specs::Reply::refused_bytes))]
pub fn refused_reply(alloc: Global, refusal: &Refusal) -> Result<Blob, Memory>
    ensures value { IfOk result (λ b. b ≡ refused_bytes refusal.now) }
    ensures size { IfOk result (λ b. length b < 2 ^ 32) }
{
    let value = status(alloc, refusal)?;
    let mut out = Out::new(alloc);
    out.bytes(alloc, ERROR, value.bytes())?;
    Ok(out.finish())
}
