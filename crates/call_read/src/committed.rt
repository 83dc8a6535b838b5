//! What a commit is told.

ghost use Rattle.std.specs.Prelude.{◌≡◌, [], map, slice_get, unwrap_or, All, IfOk};
ghost use Rattle.call_plans.specs.Endings.{responded};
ghost use Rattle.call_plans.specs.Committed.{committed_at, error_text, not_committed, storage_error, told_committed};
ghost use Rattle.write_msgs.specs.CommitsBytes.{batch_commit_write_streams_response_bytes};
ghost use Rattle.call_read.specs.Codes.{HasCodes, IsCode};

use crate::answers::{refusal_answer, responded};
use crate::moments::timestamp;
use conn_requests::Answer;
use outside::{Blob, Memory, Text};
use std::alloc::Global;
use table_model::{
    INVALID_STREAM_TYPE, Reply, STREAM_ALREADY_COMMITTED, STREAM_NOT_FOUND, StreamError,
};
use write_msgs::{BatchCommitWriteStreamsResponse, StorageError, StorageErrors};

/// The text of a code.
fn error_text(code: u32) -> &'static str
    ensures { result.now ≡ error_text code }
{
    if code == STREAM_NOT_FOUND {
        "stream not found"
    } else if code == INVALID_STREAM_TYPE {
        "not a pending stream"
    } else if code == STREAM_ALREADY_COMMITTED {
        "stream already committed"
    } else {
        "stream not finalised"
    }
}

/// The name at this place of the request.
fn text_at<'a>(texts: &'a [Text], place: u32) -> &'a str
    ensures { result.now ≡ unwrap_or (slice_get texts.now place) [] }
{
    match texts.get(place as usize) {
        Some(text) => text.text(),
        None => "",
    }
}

/// The error of one stream, as the request spells its name.
fn storage_error(alloc: Global, texts: &[Text], error: StreamError) -> Result<StorageError, Memory>
    requires { IsCode error }
    ensures { IfOk result (λ told. told ≡ storage_error texts.now error) }
{
    Ok(StorageError {
        code: error.code as i32,
        entity: Text::of(alloc, text_at(texts, error.place))?,
        error_message: Text::of(alloc, error_text(error.code))?,
    })
}

fn storage_errors(
    alloc: Global,
    texts: &[Text],
    errors: &[StreamError],
) -> Result<StorageErrors, Memory>
    requires { All IsCode errors.now }
    ensures { IfOk result (λ told. told ≡ map (storage_error texts.now) errors.now) }
{
    let mut told = Vec::with_capacity(alloc, errors.len())?;
    for error in errors {
        told.push(storage_error(alloc, texts, *error)?)?;
    }
    Ok(StorageErrors::from_vec(told))
}

fn committed_at(alloc: Global, moment: i64) -> Result<Answer, Memory>
    ensures { IfOk result (λ answer. answer ≡ responded (batch_commit_write_streams_response_bytes (committed_at moment))) }
{
    let response = BatchCommitWriteStreamsResponse {
        commit_time: Some(timestamp(moment)),
        stream_errors: StorageErrors::from_vec(Vec::new(alloc)),
    };
    responded(alloc, response.encode(alloc)?)
}

fn not_committed(alloc: Global, texts: &[Text], errors: &[StreamError]) -> Result<Answer, Memory>
    requires { All IsCode errors.now }
    ensures { IfOk result (λ answer. answer ≡ responded (batch_commit_write_streams_response_bytes (not_committed texts.now errors.now))) }
{
    let response = BatchCommitWriteStreamsResponse {
        commit_time: None,
        stream_errors: storage_errors(alloc, texts, errors)?,
    };
    responded(alloc, response.encode(alloc)?)
}

/// The answer to a commit of the streams of these names, by the reply of their table.
pub(crate) fn told_committed(alloc: Global, texts: &[Text], reply: &Reply) -> Result<Answer, Memory>
    requires { HasCodes reply.now }
    ensures { IfOk result (λ answer. answer ≡ told_committed texts.now reply.now) }
{
    match reply {
        Reply::Committed { moment } => committed_at(alloc, *moment),
        Reply::NotCommitted { errors } => not_committed(alloc, texts, errors.as_slice()),
        Reply::Refused(refusal) => refusal_answer(alloc, refusal),
        _ => responded(alloc, Blob::of(alloc, &[])?),
    }
}
