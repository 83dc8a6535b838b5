//! Giving an answer to the connection: HEADERS once on the stream, the framed messages, and the trailers (gRPC over HTTP/2,
//! Responses).
//!
//! That a stream lives and its answer goes on is asked before each part. It always does where a call goes on.

ghost use Rattle.std.specs.Prelude.{Bool, true, [], ◌∷◌, ◌≤◌, length, map, OnOk};
ghost use Rattle.hpack_blocks.specs.Spelling.{block_spelling};
ghost use Rattle.grpc_meta.specs.Answer.{trailers};
ghost use Rattle.conn_record.specs.declared.limits.TheConstants.{LONGEST_BLOCK};
ghost use Rattle.h2_record.specs.Record.{Head, Tail};
ghost use Rattle.conn_requests.specs.Given.{opening, reply_of, parts_of};
ghost use Rattle.conn_requests.specs.declared.answers.Answer.TheVariants as answer;
ghost use Rattle.conn_calls.specs.Giving.{Gives};

use conn_requests::{Answer, HttpStatus};
use grpc_frame::frame_message;
use grpc_meta::laws::{heads_are_short, trailers_are_short};
use grpc_meta::{Status, http_only, response_head, trailers};
use h2_conn::Conn;
use hpack_blocks::Field;
use outside::{Blob, Memory};
use std::alloc::Global;

/// The longest text of a status whose trailers fit `conn_record::LONGEST_BLOCK`, in bytes: each may take three. No status
/// of the service has a longer one.
const LONGEST_TEXT: usize = 1_312;

/// The longest message that a frame of gRPC holds, in bytes.
const LONGEST_MESSAGE: usize = 4_294_967_295;

fn give_head(
    alloc: Global,
    conn: &mut Conn,
    id: u32,
    fields: &[Field],
    end: bool,
) -> Result<(), Memory>
    requires short { length (block_spelling true fields.now) ≤ LONGEST_BLOCK }
    ensures { OnOk result (Gives conn.old conn.new id (Head fields.now end ∷ [])) }
{
    if !conn.may_begin(id) {
        return Err(Memory);
    }
    conn.head(alloc, id, fields, end)
}

/// Gives the HEADERS of an answer, where none were given on its stream.
pub(crate) fn give_opening(
    alloc: Global,
    conn: &mut Conn,
    id: u32,
    begun: bool,
) -> Result<(), Memory>
    ensures { OnOk result (Gives conn.old conn.new id (opening begun)) }
{
    if begun {
        return Ok(());
    }
    let fields = response_head(alloc)?;
    heads_are_short();
    give_head(alloc, conn, id, &fields, false)
}

/// Gives a framed message.
pub(crate) fn give_reply(
    alloc: Global,
    conn: &mut Conn,
    id: u32,
    message: &[u8],
) -> Result<(), Memory>
    ensures { OnOk result (Gives conn.old conn.new id (reply_of message.now ∷ [])) }
{
    if LONGEST_MESSAGE < message.len() {
        return Err(Memory);
    }
    let framed = frame_message(alloc, message)?;
    if !conn.may_go_on(id) {
        return Err(Memory);
    }
    conn.body(alloc, id, framed)
}

fn give_replies(alloc: Global, conn: &mut Conn, id: u32, messages: &[Blob]) -> Result<(), Memory>
    ensures { OnOk result (Gives conn.old conn.new id (map reply_of messages.now)) }
{
    for message in messages {
        give_reply(alloc, conn, id, message.bytes())?;
    }
    Ok(())
}

/// Gives the trailers.
pub(crate) fn give_tail(
    alloc: Global,
    conn: &mut Conn,
    id: u32,
    status: &Status,
) -> Result<(), Memory>
    ensures { OnOk result (Gives conn.old conn.new id (Tail (trailers status.now) ∷ [])) }
{
    if LONGEST_TEXT < status.text.text().len() || !conn.may_go_on(id) {
        return Err(Memory);
    }
    let fields = trailers(alloc, status)?;
    trailers_are_short();
    conn.tail(alloc, id, &fields)
}

fn give_http(alloc: Global, conn: &mut Conn, id: u32, status: HttpStatus) -> Result<(), Memory>
    ensures { (begun : Bool) → OnOk result (Gives conn.old conn.new id (parts_of begun (answer.Http status))) }
{
    let fields = http_only(alloc, status.code())?;
    heads_are_short();
    give_head(alloc, conn, id, &fields, true)
}

/// Gives the parts of an answer, one after another. Where memory is wanting, some may be given.
pub(crate) fn give(
    alloc: Global,
    conn: &mut Conn,
    id: u32,
    begun: bool,
    answer: &Answer,
) -> Result<(), Memory>
    ensures { OnOk result (Gives conn.old conn.new id (parts_of begun answer.now)) }
{
    match answer {
        Answer::Goes(message) => {
            give_opening(alloc, conn, id, begun)?;
            give_reply(alloc, conn, id, message.bytes())
        }
        Answer::Ends(messages, status) => {
            give_opening(alloc, conn, id, begun)?;
            give_replies(alloc, conn, id, messages.blobs())?;
            give_tail(alloc, conn, id, status)
        }
        Answer::Http(status) => give_http(alloc, conn, id, *status),
    }
}
