//! What waits on the streams of a connection.

ghost use Rattle.std.specs.Prelude.{◌≡◌, ℕ, ◌-◌, ◌<◌, ◌≤◌, ◌^◌, [], ◌++◌, length, min, Some, IsSome, OnOk, OnErr, nat_eq, IsTrue, ◌↔◌};
ghost use Rattle.std.specs.Map.{lookup};
ghost use Rattle.h2_frames.specs.Header.{max_frame_size};
ghost use Rattle.h2_frames.specs.Sound.{IsStreamId, IsInRange};
ghost use Rattle.h2_frames.specs.Spelling.{spelling, IsWritable};
ghost use Rattle.h2_answers.specs.Bounds.{bounds_of};
ghost use Rattle.h2_answers.specs.Waiting.{nothing, data_of, waiting_on, with_given, with_head, with_reply, with_tail, with_reset, without, IsOpenEnded, ChangesOnly, Sets};
ghost use Rattle.h2_answers.specs.Due.{IsNext, IsAhead, IsNextDue, due_frame, waiting_behind};
ghost use Rattle.h2_answers.specs.Kept.{IsShortGiven};
ghost use Rattle.h2_answers.specs.Search.{IsNextAt, IsNextWithin};

use crate::limits::Limits;
use crate::part::{Due, Given, Head, Part};
use crate::queue::Queue;
use indexmap::IndexMap;
use outside::{Blob, Memory};
use std::alloc::Global;
use std::marker::Model;

/// The parts of answers that wait, stream by stream, in the order in which the streams began to wait. A stream on which
/// nothing waits takes no place.
///
/// The streams take turns, a frame each, so that a long answer doesn't keep the others waiting.
#[derive(Drop)]
pub struct Answers {
    queues: IndexMap<u32, Queue>,
    /// The place in `queues` whose turn is next; behind the last, it is the first.
    turn: usize,
}

impl Model for Answers {
    ghost use Rattle.std.specs.Prelude.{List, ℕ};
    ghost use Rattle.h2_answers.specs.Waiting.{Waiting};
    ghost use Rattle.h2_answers.specs.Kept.{AreQueues};

    ghost Value = { List (ℕ × Waiting) };

    ghost view = { λ a. a.queues.entries };

    ghost invariant = { λ a. AreQueues a.queues.entries };
}

impl Answers {
    /// Nothing waits. It can't be refused.
    pub fn new(alloc: Global) -> Answers
        ensures { result ≡ [] }
    {
        Answers {
            queues: IndexMap::new(alloc),
            turn: 0,
        }
    }

    // Adds a part on a stream.
    fn add(&mut self, alloc: Global, id: u32, given: Given) -> Result<(), Memory>
        requires stream { IsStreamId id }
        requires short { IsShortGiven given }
        ensures ok { OnOk result (ChangesOnly self.old self.new id (with_given (waiting_on self.old id) given)) }
        ensures err { OnErr result (self.new ≡ self.old) }
    {
        if let Some(queue) = self.queues.get_mut(&id) {
            return queue.add(given);
        }
        let mut queue = Queue::new(alloc);
        queue.add(given)?;
        if !queue.is_nothing() {
            self.queues.insert(id, queue)?;
        }
        Ok(())
    }

    /// Gives the HEADERS that begin an answer, by their block as a later one of the connection, and with `end` where
    /// they are all of it. Nothing waits on the stream. Where memory is refused, all is as it was.
    pub fn head(&mut self, alloc: Global, id: u32, block: Blob, end: bool) -> Result<(), Memory>
        requires stream { IsStreamId id }
        requires short { length block < max_frame_size }
        requires first { waiting_on self.old id ≡ nothing }
        ensures ok { OnOk result (ChangesOnly self.old self.new id (with_head (waiting_on self.old id) block end)) }
        ensures err { OnErr result (self.new ≡ self.old) }
    {
        self.add(alloc, id, Given::Head(Head { block, end }))
    }

    /// Gives a reply, framed. One of no bytes has nothing to wait for. Where memory is refused, as where more than 2^62
    /// bytes would wait on the stream, all is as it was.
    pub fn body(&mut self, alloc: Global, id: u32, reply: Blob) -> Result<(), Memory>
        requires stream { IsStreamId id }
        requires open { IsOpenEnded (waiting_on self.old id) }
        ensures ok { OnOk result (ChangesOnly self.old self.new id (with_reply (waiting_on self.old id) reply)) }
        ensures err { OnErr result (self.new ≡ self.old) }
    {
        self.add(alloc, id, Given::Reply(reply))
    }

    /// Gives the trailers, by their block as a later one of the connection. Where memory is refused, all is as it was.
    pub fn tail(&mut self, alloc: Global, id: u32, block: Blob) -> Result<(), Memory>
        requires stream { IsStreamId id }
        requires short { length block < max_frame_size }
        requires open { IsOpenEnded (waiting_on self.old id) }
        ensures ok { OnOk result (ChangesOnly self.old self.new id (with_tail (waiting_on self.old id) block)) }
        ensures err { OnErr result (self.new ≡ self.old) }
    {
        self.add(alloc, id, Given::Tail(block))
    }

    /// Gives a reset of the stream, behind all that waits on it. Where memory is refused, all is as it was.
    pub fn reset(&mut self, alloc: Global, id: u32, code: u32) -> Result<(), Memory>
        requires stream { IsStreamId id }
        ensures ok { OnOk result (ChangesOnly self.old self.new id (with_reset (waiting_on self.old id) code)) }
        ensures err { OnErr result (self.new ≡ self.old) }
    {
        self.add(alloc, id, Given::Reset(code))
    }

    /// Drops all that waits on a stream, as where it is reset.
    pub fn drop_all_of(&mut self, id: u32)
        ensures { ChangesOnly self.old self.new id nothing }
    {
        let place = self.queues.get_index_of(&id).unwrap_or(usize::MAX);
        self.queues.shift_remove(&id);
        if place < self.turn {
            self.turn -= 1;
        }
    }

    /// Drops all that waits on every stream, as where the connection ends by a fault.
    pub fn clear(&mut self)
        ensures { self.new ≡ [] }
    {
        self.queues.clear();
    }

    /// How many replies wait on a stream: those of which a byte isn't taken. The count stands still at its type's end.
    pub fn replies_waiting(&self, id: u32) -> u32
        ensures { result ≡ min (length (waiting_on self.now id).replies) (2 ^ 32 - 1) }
    {
        match self.queues.get(&id) {
            Some(queue) => queue.replies().min(u32::MAX as usize) as u32,
            None => 0,
        }
    }

    /// Whether nothing waits on a stream, so that an answer may begin on it.
    pub fn has_none(&self, id: u32) -> bool
        ensures { IsTrue result ↔ (waiting_on self.now id ≡ nothing) }
    {
        !self.queues.contains_key(&id)
    }

    /// Whether nothing that waits on a stream ends it, so that more of its answer may follow.
    pub fn is_open_ended(&self, id: u32) -> bool
        ensures { IsTrue result ↔ IsOpenEnded (waiting_on self.now id) }
    {
        match self.queues.get(&id) {
            Some(queue) => queue.is_open_ended(),
            None => true,
        }
    }

    /// How many bytes of replies wait on a stream, at most 2^62.
    pub fn bytes_waiting(&self, id: u32) -> u64
        ensures value { result ≡ length (data_of (waiting_on self.now id)) }
        ensures few { result ≤ 2 ^ 62 }
    {
        match self.queues.get(&id) {
            Some(queue) => queue.bytes(),
            None => 0,
        }
    }
}

impl Answers {
    /// A frame that is due and fits, of the first stream from the one whose turn it is. `connection` is the connection's
    /// send window, `first` says that no header block of the connection was taken, and `room` is how many bytes may be
    /// written. There is none exactly where no due frame of any stream fits.
    ///
    /// HEADERS are due where nothing of their stream waits before them, DATA where no HEADERS of it do and both windows
    /// have a byte, and a reset where neither a part of an answer nor a control frame of its stream waits. DATA fit where
    /// there is room for their header and a byte; any other frame where there is room for all of it.
    pub fn next<L: Limits>(
        &self,
        limits: &L,
        connection: i64,
        first: bool,
        room: u32,
    ) -> Option<Due>
        ensures { IsNextDue (bounds_of (L.windows limits.now) (L.holds limits.now) connection first room) self.now result }
    {
        let queues = &self.queues;
        let len = queues.len();
        let turn = self.turn.min(len);
        match next_within(queues, turn, len, limits, connection, first, room) {
            Some(due) => Some(due),
            None => next_within(queues, 0, turn, limits, connection, first, room),
        }
    }

    // Takes away a part of a stream, which is next, and the stream where nothing more waits on it. The next one has its
    // turn then.
    fn advance(&mut self, id: u32, part: Part)
        requires { IsNext (waiting_on self.old id) part }
        ensures { ChangesOnly self.old self.new id (without (waiting_on self.old id) part) }
    {
        let place = self.queues.get_index_of(&id).unwrap_or(0);
        if advance_queue(&mut self.queues, id, part) {
            self.queues.shift_remove(&id);
            self.turn = place;
        } else {
            self.turn = place.saturating_add(1);
        }
    }

    // Appends the frame of a part, which is next on its stream.
    fn put(&self, out: &mut Vec<u8>, due: Due, first: bool) -> Result<(), Memory>
        requires { IsAhead self.now due }
        ensures ok { OnOk result (out.new.items ≡ out.old.items ++ spelling (due_frame first self.now due)) }
        ensures err { OnErr result (out.new.items ≡ out.old.items) }
        ensures writable { IsWritable (due_frame first self.now due) }
        ensures in_range { IsInRange (due_frame first self.now due) }
    {
        match self.queues.get(&due.stream) {
            Some(queue) => queue.put(out, due.stream, due.part, first),
            None => unreachable!(),
        }
    }

    /// Takes a frame, which is next on its stream, and appends all of its bytes. `first` says that no header block of
    /// the connection was taken. Where memory is refused, all that waits and `out` are as they were.
    ///
    /// Each byte is copied once, and no memory is asked for but what `out` grows by: none where it has room for the
    /// frame.
    pub fn take_into(&mut self, out: &mut Vec<u8>, due: Due, first: bool) -> Result<(), Memory>
        requires { IsAhead self.old due }
        ensures spelled { OnOk result (out.new.items ≡ out.old.items ++ spelling (due_frame first self.old due)) }
        ensures writable { IsWritable (due_frame first self.old due) }
        ensures in_range { IsInRange (due_frame first self.old due) }
        ensures ok { OnOk result (ChangesOnly self.old self.new due.stream (waiting_behind self.old due)) }
        ensures err { OnErr result (self.new ≡ self.old) }
        ensures same { OnErr result (out.new.items ≡ out.old.items) }
    {
        self.put(out, due, first)?;
        self.advance(due.stream, due.part);
        Ok(())
    }
}

// Takes away a part of a queue, and says whether nothing more waits in it.
fn advance_queue(queues: &mut IndexMap<u32, Queue>, id: u32, part: Part) -> bool
    requires { IsNext (waiting_on queues.old.entries id) part }
    ensures sets { Sets queues.old.entries queues.new.entries id (Some (without (waiting_on queues.old.entries id) part)) }
    ensures there { IsSome (lookup (nat_eq id) queues.old.entries) }
    ensures empty { IsTrue result ↔ (without (waiting_on queues.old.entries id) part ≡ nothing) }
{
    match queues.get_mut(&id) {
        Some(queue) => {
            queue.advance(part);
            queue.is_nothing()
        }
        None => unreachable!(),
    }
}

// The frame that is due and fits of the stream at a place.
fn next_at<L: Limits>(
    queues: &IndexMap<u32, Queue>,
    place: usize,
    limits: &L,
    connection: i64,
    first: bool,
    room: u32,
) -> Option<Due>
    ensures { IsNextAt (bounds_of (L.windows limits.now) (L.holds limits.now) connection first room) queues.now.entries place result }
{
    let (id, queue) = queues.get_index(place)?;
    let part = queue.next(*id, limits, connection, first, room)?;
    Some(Due { stream: *id, part })
}

// The same of the first stream at places from `from` on and before `to`.
fn next_within<L: Limits>(
    queues: &IndexMap<u32, Queue>,
    from: usize,
    to: usize,
    limits: &L,
    connection: i64,
    first: bool,
    room: u32,
) -> Option<Due>
    ensures { IsNextWithin (bounds_of (L.windows limits.now) (L.holds limits.now) connection first room) queues.now.entries from to result }
{
    for place in from..to {
        if let Some(due) = next_at(queues, place, limits, connection, first, room) {
            return Some(due);
        }
    }
    None
}
