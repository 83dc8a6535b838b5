ghost use Rattle.std.specs.Prelude.{◌≡◌, ◌≤◌, ◌<◌, ◌^◌, ◌+◌, length, map, sum_by, All, Ok};
ghost use Rattle.proto_fields.specs.Message.{fields_of};
ghost use Rattle.proto_fields.specs.Spans.{IsWithin, part, records_in, payload_size};
ghost use Rattle.write_msgs.specs.Faults.{ReadsAs};
ghost use Rattle.write_msgs.specs.Reading.{nested};
ghost use Rattle.write_msgs.specs.Repeated.{items_from, listed, repeated};
ghost use Rattle.write_msgs.specs.Request.{int64_value_of};
ghost use Rattle.write_msgs.specs.Response.{append_result_of, status_of, row_error_of, outcome_in, rows_and_name_in};

use crate::faults::{MsgFault, both};
use crate::nested::{inner_message, present};
use crate::numbers::{
    APPEND_RESULT, CODE, ERROR, INDEX, MESSAGE, RESPONSE_STREAM, RESULT_OFFSET, ROW_CODE,
    ROW_ERRORS, ROW_MESSAGE,
};
use crate::reading::{int64_value, read_int32, read_int64, read_text};
use crate::repeated::{in_nth_field, occurrence, with_item};
use crate::response_parts::{AppendResult, RowError, RowErrors, Status};
use outside::{Span, Text};
use proto_fields::{Field, all_bytes, fields};
use std::alloc::Global;

/// The offset within an AppendResult, an Int64Value.
fn read_offset(alloc: Global, bytes: &[u8], found: &[Field]) -> Result<Option<i64>, MsgFault>
    requires small { length bytes.now < 2 ^ 32 }
    requires message { fields_of bytes.now ≡ Ok (records_in bytes.now found.now) }
    requires within { All (IsWithin (length bytes.now)) found.now }
    requires size { sum_by payload_size found.now ≤ length bytes.now }
    ensures { ReadsAs result (nested int64_value_of RESULT_OFFSET bytes.now (records_in bytes.now found.now)) }
{
    let Some(inner) = inner_message(alloc, bytes, found, RESULT_OFFSET)? else {
        return Ok(None);
    };
    present(int64_value(alloc, inner.bytes()), bytes, RESULT_OFFSET)
}

/// An AppendResult.
#[tactic(auto, unfolding(crate::specs::Response::append_result_of))]
fn append_result(alloc: Global, bytes: &[u8]) -> Result<AppendResult, MsgFault>
    requires { length bytes.now < 2 ^ 32 }
    ensures { ReadsAs result (append_result_of bytes.now) }
{
    let found = fields(alloc, bytes)?;
    let offset = read_offset(alloc, bytes, found.as_slice())?;
    Ok(AppendResult { offset })
}

/// A Status.
#[tactic(auto, unfolding(crate::specs::Response::status_of))]
fn status(alloc: Global, bytes: &[u8]) -> Result<Status, MsgFault>
    requires { length bytes.now < 2 ^ 32 }
    ensures { ReadsAs result (status_of bytes.now) }
{
    let found = fields(alloc, bytes)?;
    let message = read_text(alloc, bytes, found.as_slice(), MESSAGE)?;
    Ok(Status {
        code: read_int32(found.as_slice(), CODE),
        message,
    })
}

/// A RowError.
#[tactic(auto, unfolding(crate::specs::Response::row_error_of))]
fn row_error(alloc: Global, bytes: &[u8]) -> Result<RowError, MsgFault>
    requires { length bytes.now < 2 ^ 32 }
    ensures { ReadsAs result (row_error_of bytes.now) }
{
    let found = fields(alloc, bytes)?;
    let message = read_text(alloc, bytes, found.as_slice(), ROW_MESSAGE)?;
    Ok(RowError {
        index: read_int64(found.as_slice(), INDEX),
        code: read_int32(found.as_slice(), ROW_CODE),
        message,
    })
}

/// The AppendResult of a response.
fn read_result(
    alloc: Global,
    bytes: &[u8],
    found: &[Field],
) -> Result<Option<AppendResult>, MsgFault>
    requires small { length bytes.now < 2 ^ 32 }
    requires message { fields_of bytes.now ≡ Ok (records_in bytes.now found.now) }
    requires within { All (IsWithin (length bytes.now)) found.now }
    requires size { sum_by payload_size found.now ≤ length bytes.now }
    ensures { ReadsAs result (nested append_result_of APPEND_RESULT bytes.now (records_in bytes.now found.now)) }
{
    let Some(inner) = inner_message(alloc, bytes, found, APPEND_RESULT)? else {
        return Ok(None);
    };
    present(append_result(alloc, inner.bytes()), bytes, APPEND_RESULT)
}

/// The error of a response, a Status.
fn read_error(alloc: Global, bytes: &[u8], found: &[Field]) -> Result<Option<Status>, MsgFault>
    requires small { length bytes.now < 2 ^ 32 }
    requires message { fields_of bytes.now ≡ Ok (records_in bytes.now found.now) }
    requires within { All (IsWithin (length bytes.now)) found.now }
    requires size { sum_by payload_size found.now ≤ length bytes.now }
    ensures { ReadsAs result (nested status_of ERROR bytes.now (records_in bytes.now found.now)) }
{
    let Some(inner) = inner_message(alloc, bytes, found, ERROR)? else {
        return Ok(None);
    };
    present(status(alloc, inner.bytes()), bytes, ERROR)
}

/// The AppendResult and the error of a response.
pub(crate) fn read_outcome(
    alloc: Global,
    bytes: &[u8],
    found: &[Field],
) -> Result<(Option<AppendResult>, Option<Status>), MsgFault>
    requires small { length bytes.now < 2 ^ 32 }
    requires message { fields_of bytes.now ≡ Ok (records_in bytes.now found.now) }
    requires within { All (IsWithin (length bytes.now)) found.now }
    requires size { sum_by payload_size found.now ≤ length bytes.now }
    ensures { ReadsAs result (outcome_in bytes.now (records_in bytes.now found.now)) }
{
    let appended = read_result(alloc, bytes, found);
    both(appended, read_error(alloc, bytes, found))
}

/// The RowErrors at these places.
fn row_errors_at(alloc: Global, bytes: &[u8], spans: &[Span]) -> Result<Vec<RowError>, MsgFault>
    requires small { length bytes.now < 2 ^ 32 }
    requires within { All (λ s. s.start + s.len ≤ length bytes.now) spans.now }
    ensures { ReadsAs (listed result) (items_from row_error_of 0 (map (part bytes.now) spans.now)) }
{
    let mut read = Ok(Vec::new(alloc));
    for (n, span) in spans.iter().enumerate() {
        read = with_item(read, row_error(alloc, occurrence(bytes, *span)), n);
    }
    read
}

/// The errors of rows of a response.
fn read_row_errors(alloc: Global, bytes: &[u8], found: &[Field]) -> Result<RowErrors, MsgFault>
    requires small { length bytes.now < 2 ^ 32 }
    requires message { fields_of bytes.now ≡ Ok (records_in bytes.now found.now) }
    requires within { All (IsWithin (length bytes.now)) found.now }
    ensures { ReadsAs result (repeated row_error_of ROW_ERRORS bytes.now (records_in bytes.now found.now)) }
{
    let spans = all_bytes(alloc, found, ROW_ERRORS)?;
    match row_errors_at(alloc, bytes, spans.as_slice()) {
        Ok(errors) => Ok(RowErrors::from_vec(errors)),
        Err(fault) => Err(in_nth_field(fault, bytes, ROW_ERRORS)),
    }
}

/// The errors of rows of a response, and the name of its write stream.
pub(crate) fn read_rows_and_name(
    alloc: Global,
    bytes: &[u8],
    found: &[Field],
) -> Result<(RowErrors, Text), MsgFault>
    requires small { length bytes.now < 2 ^ 32 }
    requires message { fields_of bytes.now ≡ Ok (records_in bytes.now found.now) }
    requires within { All (IsWithin (length bytes.now)) found.now }
    ensures { ReadsAs result (rows_and_name_in bytes.now (records_in bytes.now found.now)) }
{
    let errors = read_row_errors(alloc, bytes, found);
    both(errors, read_text(alloc, bytes, found, RESPONSE_STREAM))
}
