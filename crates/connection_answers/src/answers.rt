//! Parts of an answer, where they may be given.

ghost use Rattle.std.specs.Prelude.{◌≡◌, ◌≤◌, true, IsTrue, IfOk, All, length};
ghost use Rattle.hpack_blocks.specs.Spelling.{Fits, block_spelling};
ghost use Rattle.h2_frames.specs.Header.{max_frame_size};

use crate::spelled::bytes_of;
use crate::stop::Stop;
use grpc_meta::{Status, http_only, response_head, trailers};
use h2_conn::Conn;
use hpack_blocks::{Field, write_block};
use outside::{Blob, Memory, Text};
use std::alloc::Global;

/// The longest block, as a first one of its connection.
const MOST_OCTETS: usize = 16_384;

/// A string of a block has fewer octets.
const TOO_LONG: usize = 4_294_967_296;

/// Whether a field can be spelled.
fn fits(field: &Field) -> bool
    ensures { IsTrue result → Fits field.now }
{
    field.name.len() < TOO_LONG && field.value.len() < TOO_LONG
}

/// Whether all can.
fn all_fit(fields: &[Field]) -> bool
    ensures { IsTrue result → All Fits fields.now }
{
    fields.iter().all(fits)
}

/// Whether the fields' block fits a frame, also as the first of its connection.
fn is_short(alloc: Global, fields: &[Field]) -> Result<bool, Memory>
    ensures { IfOk result (λ short. IsTrue short → length (block_spelling true fields.now) ≤ max_frame_size) }
{
    if !all_fit(fields) {
        return Ok(false);
    }
    let first = true;
    let block = write_block(alloc, fields, first)?;
    Ok(block.len() <= MOST_OCTETS)
}

/// Gives HEADERS that begin an answer, with `end` where they are all of it. It says whether they may be given.
fn give_head(
    alloc: Global,
    conn: &mut Conn,
    stream: u32,
    fields: &[Field],
    end: bool,
) -> Result<bool, Memory> {
    if !conn.may_begin(stream) || !is_short(alloc, fields)? {
        return Ok(false);
    }
    conn.head(alloc, stream, fields, end)?;
    Ok(true)
}

/// The HEADERS that begin the answer of a call.
pub(crate) fn head(alloc: Global, conn: &mut Conn, stream: u32) -> Result<bool, Memory> {
    let fields = response_head(alloc)?;
    let end = false;
    give_head(alloc, conn, stream, fields.as_slice(), end)
}

/// The answer of HTTP alone: 405, 415 or 431.
pub(crate) fn only(alloc: Global, conn: &mut Conn, stream: u32, code: u16) -> Result<bool, Memory> {
    if !(code == 405 || code == 415 || code == 431) {
        return Ok(false);
    }
    let fields = http_only(alloc, code)?;
    let end = true;
    give_head(alloc, conn, stream, fields.as_slice(), end)
}

/// A reply, so many times.
pub(crate) fn reply(
    alloc: Global,
    conn: &mut Conn,
    stream: u32,
    times: u32,
    digits: &str,
) -> Result<bool, Stop> {
    let Some(bytes) = bytes_of(alloc, digits)? else {
        return Ok(false);
    };
    for _ in 0..times {
        if !conn.may_go_on(stream) {
            return Ok(false);
        }
        conn.body(alloc, stream, Blob::of(alloc, bytes.bytes())?)?;
    }
    Ok(true)
}

/// The trailers of a call.
pub(crate) fn tail(
    alloc: Global,
    conn: &mut Conn,
    stream: u32,
    code: u32,
    text: &str,
) -> Result<bool, Memory> {
    let status = Status {
        code,
        text: Text::of(alloc, text)?,
    };
    let fields = trailers(alloc, &status)?;
    if !conn.may_go_on(stream) || !is_short(alloc, fields.as_slice())? {
        return Ok(false);
    }
    conn.tail(alloc, stream, fields.as_slice())?;
    Ok(true)
}

/// A reset behind all that was given.
pub(crate) fn abort(
    alloc: Global,
    conn: &mut Conn,
    stream: u32,
    code: u32,
) -> Result<bool, Memory> {
    if !conn.may_go_on(stream) {
        return Ok(false);
    }
    conn.reset(alloc, stream, code)?;
    Ok(true)
}
