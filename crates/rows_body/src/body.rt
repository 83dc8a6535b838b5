//! Responses, polled.

ghost use Rattle.std.specs.Prelude.{◌≡◌, ⊤, [], Err, IfSome, OnSome};
ghost use Rattle.futures.specs.Task.{Covers, Keeps};
ghost use Rattle.futures.specs.Poll.{IfReady, OnPending};
ghost use Rattle.futures.specs.Runs.{After, Within};
ghost use Rattle.row_responses.specs.Body.{IsOf};
ghost use Rattle.rows_body.specs.Rows.{MayGive, Polls, Takes, items_of};

use column_types::Schema;
use futures::Stream;
use futures::task::{Context, Poll, Source, Waker};
use outside::{Blob, Memory};
use read_cursor::Lease;
use row_responses::{NextResponse, ReadBody};
use std::alloc::Global;
use std::marker::Model;

/// Why a body gave no more responses.
#[derive(Clone, Copy, Debug, PartialEq, Eq)]
pub enum RowsEnd {
    /// The offset is beyond the number of matching rows, `matched`. No response was given.
    PastEnd { matched: u64 },
    /// An allocation was refused.
    Memory,
}

/// The responses of a ReadRows call that are still to come. Contracts see them, the room, and the name of the source that
/// wakes the one who polls.
#[derive(Drop)]
pub struct RowsBody<'t> {
    schema: &'t Schema,
    alloc: Global,
    body: ReadBody,
    is_over: bool,
    room: u64,
    source: Source,
    waker: Option<Waker>,
}

impl<'t> Model for RowsBody<'t> {
    ghost use Rattle.std.specs.Coded.{codes};
    ghost use Rattle.std.specs.Prelude.{◌≡◌, ◌<◌, None};
    ghost use Rattle.row_responses.specs.Body.{IsOf};
    ghost use Rattle.rows_body.specs.Rows.{Rows, items_left};

    ghost Value = { Rows };

    ghost coded = { Prim.hlevel codes };

    ghost view = { λ b. record { left = items_left b.schema.now b.is_over b.body; room = b.room; source = b.source.id } };

    // The schema is that of the lease's rows, and no one is left asleep where there is room.
    ghost invariant = { λ b. IsOf b.schema.now b.body.reading.lease × (0 < b.room → b.waker ≡ None) };
}

impl<'t> RowsBody<'t> {
    /// The responses of a lease's matching rows behind the first `offset` ones, by the schema of the lease's rows. There is
    /// no room yet. It asks for no memory.
    pub fn new(alloc: Global, schema: &'t Schema, lease: Lease, offset: u64) -> RowsBody<'t>
        requires { IsOf schema.now lease }
        ensures left { result.left ≡ items_of schema.now (record { lease = lease; at = offset }) }
        ensures room { result.room ≡ 0 }
    {
        RowsBody {
            schema,
            alloc,
            body: ReadBody::new(lease, offset),
            is_over: false,
            room: 0,
            source: Source::new(),
            waker: None,
        }
    }

    /// How many bytes may be written now. A poll is pending exactly where it is 0; above 0 the one who waits is woken.
    pub fn set_room(&mut self, room: u64)
        ensures { self.new ≡ record self.old { room = room } }
    {
        self.room = room;
        if room > 0 {
            // A waker wakes its task when it is dropped.
            self.waker = None;
        }
    }

    /// An error, behind which nothing comes.
    fn ended(&mut self, end: RowsEnd) -> Result<Blob, RowsEnd>
        ensures ended { result ≡ Err end }
        ensures none { self.new ≡ record self.old { left = [] } }
    {
        self.is_over = true;
        Err(end)
    }

    /// The next item, or the end.
    fn next_item(&mut self) -> Option<Result<Blob, RowsEnd>>
        ensures takes { Takes self.old.left self.new.left result }
        ensures rest { self.new ≡ record self.old { left = self.new.left } }
    {
        if self.is_over {
            return None;
        }
        match self.body.next(self.alloc, self.schema) {
            Ok(NextResponse::Response(message)) => Some(Ok(message)),
            Ok(NextResponse::End) => None,
            Ok(NextResponse::PastEnd { matched }) => Some(self.ended(RowsEnd::PastEnd { matched })),
            Err(Memory) => Some(self.ended(RowsEnd::Memory)),
        }
    }
}

impl Stream for RowsBody<'_> {
    type Item = Result<Blob, RowsEnd>;

    ghost needs = { λ b s. s ≡ b.source };

    ghost yields = { λ b. MayGive b.left };

    /// The next item, or the end. It is pending exactly where there is no room. Behind an item that is an error comes the
    /// end.
    fn poll_next(&mut self, cx: &mut Context<'_>) -> Poll<Option<Result<Blob, RowsEnd>>>
        ensures polls { Polls self.old self.new result }
        ensures value { IfReady result (MayGive self.old.left []) }
        ensures rest { IfReady result (λ o. IfSome o (λ x. After (MayGive self.old.left) x (MayGive self.new.left))) }
        ensures goes { IfReady result (λ o. OnSome o ⊤) }
        ensures again { OnPending result ⊤ }
        ensures same { OnPending result (Within (MayGive self.old.left) (MayGive self.new.left)) }
        ensures registered { OnPending result (Covers cx.new (λ s. s ≡ self.new.source)) }
        ensures kept { Keeps cx.old cx.new }
    {
        if self.room == 0 {
            return cx.register(&self.source, &mut self.waker);
        }
        Poll::Ready(self.next_item())
    }
}
