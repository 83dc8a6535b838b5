//! The responses to messages.

ghost use Rattle.std.specs.Prelude.{◌≡◌, map, IfOk, []};
ghost use Rattle.call_append.specs.Response.{accepted, refused, row_error, told, told_without_rows};

use crate::texts::{cause_text, row_text};
use column_types::Column;
use outside::{Memory, Text};
use row_decode::RowFault;
use std::alloc::Global;
use table_model::{Reply, Why};
use write_msgs::{AppendResult, AppendRowsResponse, RowError, RowErrors, Status};

/// The code of a row error: FIELDS_ERROR of RowError.RowErrorCode.
pub const FIELDS_ERROR: u32 = 1;

fn no_text(alloc: Global) -> Text
    ensures { result ≡ [] }
{
    Text::from_string(String::new(alloc))
}

/// The response to an append that was accepted, whose first row has this offset, where the stream has offsets.
fn accepted(alloc: Global, offset: Option<u64>) -> AppendRowsResponse
    ensures { result ≡ accepted offset }
{
    AppendRowsResponse {
        append_result: Some(AppendResult {
            offset: offset.map(|offset| offset.cast_signed()),
        }),
        error: None,
        row_errors: RowErrors::from_vec(Vec::new(alloc)),
        write_stream: no_text(alloc),
    }
}

/// The error of a refused row.
fn row_error(alloc: Global, columns: &[Column], fault: RowFault) -> Result<RowError, Memory>
    ensures { IfOk result (λ error. error ≡ row_error columns.now fault) }
{
    Ok(RowError {
        index: fault.index as i64,
        code: FIELDS_ERROR as i32,
        message: row_text(alloc, columns, fault.why)?,
    })
}

/// The errors of refused rows.
fn row_errors(alloc: Global, columns: &[Column], faults: &[RowFault]) -> Result<RowErrors, Memory>
    ensures { IfOk result (λ errors. errors ≡ map (row_error columns.now) faults.now) }
{
    let mut errors = Vec::with_capacity(alloc, faults.len())?;
    for fault in faults {
        errors.push(row_error(alloc, columns, *fault)?)?;
    }
    Ok(RowErrors::from_vec(errors))
}

/// The response to a message that was refused for this cause, with these rows at fault.
pub fn refused(
    alloc: Global,
    columns: &[Column],
    cause: &Why,
    faults: &[RowFault],
) -> Result<AppendRowsResponse, Memory>
    ensures { IfOk result (λ response. response ≡ refused columns.now cause.now faults.now) }
{
    Ok(AppendRowsResponse {
        append_result: None,
        error: Some(Status {
            code: cause.code() as i32,
            message: cause_text(alloc, cause)?,
        }),
        row_errors: row_errors(alloc, columns, faults)?,
        write_stream: no_text(alloc),
    })
}

/// The response to what a table told of an append.
pub fn told(alloc: Global, columns: &[Column], reply: &Reply) -> Result<AppendRowsResponse, Memory>
    ensures { IfOk result (λ response. response ≡ told columns.now reply.now) }
{
    match reply {
        Reply::Appended { offset } => Ok(accepted(alloc, *offset)),
        Reply::Refused(refusal) => refused(alloc, columns, &refusal.why, &[]),
        _ => Ok(accepted(alloc, None)),
    }
}

/// The response to a message whose rows can't be appended for this cause, with these rows at fault: what a table told
/// when it was asked for the stream. That the stream isn't there counts first.
pub fn told_without_rows(
    alloc: Global,
    columns: &[Column],
    cause: &Why,
    faults: &[RowFault],
    reply: &Reply,
) -> Result<AppendRowsResponse, Memory>
    ensures { IfOk result (λ response. response ≡ told_without_rows columns.now cause.now faults.now reply.now) }
{
    match reply {
        Reply::Refused(refusal) => refused(alloc, columns, &refusal.why, &[]),
        _ => refused(alloc, columns, cause, faults),
    }
}
