//! What is left of answers is given as the windows open, one message after another.

ghost use Rattle.std.specs.Prelude.{◌≡◌, ℕ, false, true, OnOk, [], ◌∷◌, None, Some, IfSome, IsSome, is_some};
ghost use Rattle.h2_streams.specs.Book.{find};
ghost use Rattle.h2_record.specs.Record.{Record, Tail};
ghost use Rattle.h2_record.specs.Faults.{first_fault_of};
ghost use Rattle.h2_record.specs.Replies.{waiting_of};
ghost use Rattle.h2_record.specs.Resets.{is_live};
ghost use Rattle.h2_record.specs.Room.{room_in};
ghost use Rattle.h2_conn.specs.Stands.{Stands};
ghost use Rattle.grpc_meta.specs.Answer.{trailers};
ghost use Rattle.call_read.specs.Items.{end_status};
ghost use Rattle.rows_body.specs.declared.body.RowsEnd.TheVariants as rows_end;
ghost use Rattle.conn_calls.specs.Dealing.{body_in, Dealt, NoneReady, Polls};
ghost use Rattle.conn_calls.specs.Polling.{IsWithout};
ghost use Rattle.conn_calls.specs.Giving.{Gives};
ghost use Rattle.conn_calls.specs.Ready.{IsHeld, MayPoll};

use crate::dealing::Dealing;
use crate::giving::{give_reply, give_tail};
use call_append::cause_text;
use futures::Stream;
use futures::task::{Context, Poll};
use grpc_meta::Status;
use h2_conn::Conn;
use indexmap::IndexMap;
use outside::{Memory, Text};
use rows_body::{Hand, RowsBody, RowsEnd};
use std::alloc::Global;
use std::sync::Wait;
use table_model::{Refusal, Why};

// Whether a body may be polled, or let go: its stream lives no more, or the windows leave room and no reply of it waits.
fn is_ready(conn: &Conn, id: u32) -> bool
    ensures held { result ≡ false → IsHeld conn.now id }
    ensures may { result ≡ true → MayPoll conn.now id }
{
    if !conn.is_live(id) {
        return true;
    }
    if conn.room_of(id) <= 0 {
        return false;
    }
    conn.waiting(id) == 0
}

// The first stream, in their order, whose body may be polled or let go.
fn first_ready(conn: &Conn, bodies: &IndexMap<u32, RowsBody<'_>>) -> Option<u32>
    ensures none { result ≡ None → (id : ℕ) → is_some (body_in bodies.now.entries id) ≡ true → IsHeld conn.now id }
    ensures some { IfSome result (λ id. MayPoll conn.now id) }
{
    for at in 0..bodies.len() {
        let Some((id, _)) = bodies.get_index(at) else {
            return None;
        };
        if is_ready(conn, *id) {
            return Some(*id);
        }
    }
    None
}

// Status 0.
fn give_end(alloc: Global, conn: &mut Conn, id: u32) -> Result<(), Memory>
    ensures { OnOk result (Gives conn.old conn.new id (Tail (trailers (record { code = 0; text = [] })) ∷ [])) }
{
    let status = Status {
        code: 0,
        text: Text::of(alloc, "")?,
    };
    give_tail(alloc, conn, id, &status)
}

// The status of an offset beyond the rows.
fn give_past_end(alloc: Global, conn: &mut Conn, id: u32, matched: u64) -> Result<(), Memory>
    ensures { OnOk result (Gives conn.old conn.new id (Tail (trailers (end_status (rows_end.PastEnd matched))) ∷ [])) }
{
    let refusal = Refusal::of(Why::PastEnd);
    let text = cause_text(alloc, &refusal.why)?;
    let status = Status {
        code: refusal.code,
        text,
    };
    give_tail(alloc, conn, id, &status)
}

impl<'t> Dealing<'t> {
    /// The stream of a body that may be polled, if there is one: the first that was put there.
    pub fn ready(&self) -> Option<u32>
        ensures none { result ≡ None → NoneReady self.now }
        ensures some { IfSome result (λ id. MayPoll self.now.conn id) }
    {
        first_ready(&self.conn, &self.bodies)
    }

    /// Polls the body of a stream, and gives the next part of its answer to the connection; others are then before it in their
    /// turns. Where the stream lives no more, the body is let go. At want of memory the connection can't go on.
    pub fn poll<R: Wait>(
        &mut self,
        rt: &R,
        alloc: Global,
        hand: &Hand,
        id: u32,
    ) -> Result<(), Memory>
        requires { MayPoll self.old.conn id }
        ensures { OnOk result (Polls self.old self.new) }
    {
        let Some(body) = self.take_body(id) else {
            return Ok(());
        };
        if !self.conn.is_live(id) {
            return Ok(());
        }
        let mut cx = hand.begin(rt)?;
        let polled = self.poll_body(alloc, &mut cx, id, body);
        cx.cancel();
        polled
    }

    // Polls a body that was taken out, and puts it back where more is left.
    fn poll_body(
        &mut self,
        alloc: Global,
        cx: &mut Context<'_>,
        id: u32,
        mut body: RowsBody<'t>,
    ) -> Result<(), Memory>
        requires { IsSome (find self.old.conn.streams id) }
        ensures { (before : Dealt) → IsWithout before self.old id (Some body.entry) → OnOk result (Polls before self.new) }
    {
        body.set_room(self.conn.room_of(id).max(0) as u64);
        match body.poll_next(cx) {
            Poll::Pending => self.leave(id, body),
            Poll::Ready(None) => give_end(alloc, &mut self.conn, id),
            Poll::Ready(Some(Ok(message))) => {
                give_reply(alloc, &mut self.conn, id, message.bytes())?;
                self.leave(id, body)
            }
            Poll::Ready(Some(Err(RowsEnd::PastEnd { matched }))) => {
                give_past_end(alloc, &mut self.conn, id, matched)
            }
            Poll::Ready(Some(Err(RowsEnd::Memory))) => Err(Memory),
        }
    }
}
