ghost use Rattle.std.specs.Prelude.{◌≡◌, ◌<◌, ◌^◌, ◌++◌, length, map, IfOk, OnOk};
ghost use Rattle.std.specs.Option.{option_map};
ghost use Rattle.proto_fields.specs.Message.{message_of};
ghost use Rattle.write_msgs.specs.Faults.{ReadsAs};
ghost use Rattle.write_msgs.specs.Response.{append_rows_response_of};
ghost use Rattle.write_msgs.specs.Writing.{message_field, repeated_field};
ghost use Rattle.write_msgs.specs.ResponseBytes.{append_result_bytes, status_bytes, row_error_bytes, append_rows_response_bytes};

use crate::faults::{MsgFault, both};
use crate::numbers::{
    APPEND_RESULT, CODE, ERROR, INDEX, MESSAGE, RESPONSE_STREAM, RESULT_OFFSET, ROW_CODE,
    ROW_ERRORS, ROW_MESSAGE,
};
use crate::response_parts::{AppendResult, RowError, RowErrors, Status};
use crate::response_reading::{read_outcome, read_rows_and_name};
use crate::writing::{put_int, put_int64_value, put_text};
use outside::{Blob, Memory, Text};
use proto_fields::{Out, fields};
use std::alloc::Global;

/// The answer to an AppendRowsRequest.
#[derive(Drop)]
pub struct AppendRowsResponse {
    /// What an accepted append was given.
    pub append_result: Option<AppendResult>,
    /// Why an append was refused.
    pub error: Option<Status>,
    /// The rows that were at fault.
    pub row_errors: RowErrors,
    /// The name of the write stream, as the request gave it.
    pub write_stream: Text,
}

/// An AppendResult.
#[tactic(auto, unfolding(crate::specs::ResponseBytes::append_result_bytes))]
fn write_result(alloc: Global, appended: &AppendResult) -> Result<Blob, Memory>
    ensures { IfOk result (λ b. b ≡ append_result_bytes appended.now) }
{
    let mut out = Out::new(alloc);
    put_int64_value(alloc, &mut out, RESULT_OFFSET, appended.offset)?;
    Ok(out.finish())
}

/// A Status.
#[tactic(auto, using(crate::proofs::WritingLemmas::message_joins), unfolding(crate::specs::ResponseBytes::status_bytes))]
fn write_status(alloc: Global, status: &Status) -> Result<Blob, Memory>
    ensures { IfOk result (λ b. b ≡ status_bytes status.now) }
{
    let mut out = Out::new(alloc);
    put_int(alloc, &mut out, CODE, status.code as i64)?;
    put_text(alloc, &mut out, MESSAGE, &status.message)?;
    Ok(out.finish())
}

/// A RowError.
#[tactic(auto, using(crate::proofs::WritingLemmas::message_joins), unfolding(crate::specs::ResponseBytes::row_error_bytes))]
fn write_row_error(alloc: Global, error: &RowError) -> Result<Blob, Memory>
    ensures { IfOk result (λ b. b ≡ row_error_bytes error.now) }
{
    let mut out = Out::new(alloc);
    put_int(alloc, &mut out, INDEX, error.index)?;
    put_int(alloc, &mut out, ROW_CODE, error.code as i64)?;
    put_text(alloc, &mut out, ROW_MESSAGE, &error.message)?;
    Ok(out.finish())
}

fn put_result(alloc: Global, out: &mut Out, appended: &Option<AppendResult>) -> Result<(), Memory>
    ensures { OnOk result (out.new ≡ out.old ++ message_of (message_field APPEND_RESULT (option_map append_result_bytes appended.now))) }
{
    let Some(appended) = appended else {
        return Ok(());
    };
    let message = write_result(alloc, appended)?;
    out.bytes(alloc, APPEND_RESULT, message.bytes())
}

fn put_error(alloc: Global, out: &mut Out, error: &Option<Status>) -> Result<(), Memory>
    ensures { OnOk result (out.new ≡ out.old ++ message_of (message_field ERROR (option_map status_bytes error.now))) }
{
    let Some(error) = error else {
        return Ok(());
    };
    let message = write_status(alloc, error)?;
    out.bytes(alloc, ERROR, message.bytes())
}

fn put_row_errors(alloc: Global, out: &mut Out, errors: &[RowError]) -> Result<(), Memory>
    ensures { OnOk result (out.new ≡ out.old ++ message_of (repeated_field ROW_ERRORS (map row_error_bytes errors.now))) }
{
    for error in errors {
        let message = write_row_error(alloc, error)?;
        out.bytes(alloc, ROW_ERRORS, message.bytes())?;
    }
    Ok(())
}

impl AppendRowsResponse {
    /// Reads a response of fewer than 2^32 bytes.
    ///
    /// It is refused where it, or a message within it, is no message of Protocol Buffers, and where
    /// one of its texts isn't UTF-8. A row error that is no message is reported at its own tag.
    #[tactic(auto, unfolding(crate::specs::Response::append_rows_response_of))]
    pub fn decode(alloc: Global, bytes: &[u8]) -> Result<AppendRowsResponse, MsgFault>
        requires { length bytes.now < 2 ^ 32 }
        ensures { ReadsAs result (append_rows_response_of bytes.now) }
    {
        let found = fields(alloc, bytes)?;
        let outcome = read_outcome(alloc, bytes, found.as_slice());
        let rows_and_name = read_rows_and_name(alloc, bytes, found.as_slice());
        let ((append_result, error), (row_errors, write_stream)) = both(outcome, rows_and_name)?;
        Ok(AppendRowsResponse {
            append_result,
            error,
            row_errors,
            write_stream,
        })
    }

    /// The message as bytes.
    #[tactic(auto, using(crate::proofs::WritingLemmas::message_joins), unfolding(crate::specs::ResponseBytes::append_rows_response_bytes))]
    pub fn encode(&self, alloc: Global) -> Result<Blob, Memory>
        ensures { IfOk result (λ b. b ≡ append_rows_response_bytes self.now) }
    {
        let mut out = Out::new(alloc);
        put_result(alloc, &mut out, &self.append_result)?;
        put_error(alloc, &mut out, &self.error)?;
        put_row_errors(alloc, &mut out, self.row_errors.errors())?;
        put_text(alloc, &mut out, RESPONSE_STREAM, &self.write_stream)?;
        Ok(out.finish())
    }
}
