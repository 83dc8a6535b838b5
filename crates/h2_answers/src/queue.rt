//! What waits on one stream.

ghost use Rattle.std.specs.Prelude.{◌≡◌, ℕ, ◌+◌, ◌≤◌, ◌<◌, ◌++◌, ◌↔◌, IsTrue, OnOk, OnErr, length, nat_le, Some, None, if◌then◌else◌, ◌^◌};
ghost use Rattle.std.specs.List.{concat};
ghost use Rattle.h2_frames.specs.Header.{max_frame_size};
ghost use Rattle.h2_frames.specs.Sound.{IsStreamId, IsInRange};
ghost use Rattle.h2_frames.specs.Spelling.{spelling, IsWritable};
ghost use Rattle.h2_answers.specs.Bounds.{bounds_of};
ghost use Rattle.h2_answers.specs.Waiting.{nothing, data_of, with_given, without, IsOpenEnded};
ghost use Rattle.h2_answers.specs.Due.{IsNext, IsNextPart, frame_of, block_of};
ghost use Rattle.h2_answers.specs.Kept.{IsShortGiven};
ghost use Rattle.h2_answers.specs.Search.{IsGreatestLen, IsOpen};

use crate::limits::Limits;
use crate::part::{Given, Head, Part};
use crate::replies::Replies;
use crate::spelled::{RESET_LEN, put_data, put_headers, put_reset};
use h2_frames::{HEADER_LEN, MAX_FRAME_SIZE};
use outside::{Blob, Memory};
use std::alloc::Global;
use std::collections::VecDeque;
use std::marker::Model;

/// The parts of an answer that wait on a stream, and the codes of its resets.
#[derive(Drop)]
pub(crate) struct Queue {
    head: Option<Head>,
    replies: Replies,
    tail: Option<Blob>,
    resets: VecDeque<u32>,
}

impl Model for Queue {
    ghost use Rattle.h2_answers.specs.Waiting.{Waiting};
    ghost use Rattle.h2_answers.specs.Kept.{AreShort};

    ghost Value = { Waiting };

    ghost view = { λ q. record { head = q.head; replies = q.replies; tail = q.tail; resets = q.resets.items } };

    ghost invariant = { λ q. AreShort q.head q.tail };
}

impl Queue {
    /// Nothing waits. It can't be refused.
    pub(crate) fn new(alloc: Global) -> Queue
        ensures { result ≡ nothing }
    {
        Queue {
            head: None,
            replies: Replies::new(alloc),
            tail: None,
            resets: VecDeque::new(alloc),
        }
    }

    /// Whether nothing waits.
    pub(crate) fn is_nothing(&self) -> bool
        ensures { IsTrue result ↔ (self.now ≡ nothing) }
    {
        self.head.is_none()
            && self.replies.len() == 0
            && self.tail.is_none()
            && self.resets.is_empty()
    }

    /// Whether nothing that waits ends the stream.
    pub(crate) fn is_open_ended(&self) -> bool
        ensures { IsTrue result ↔ IsOpenEnded self.now }
    {
        let ends = match &self.head {
            Some(head) => head.end,
            None => false,
        };
        !ends && self.tail.is_none() && self.resets.is_empty()
    }

    /// How many replies wait.
    pub(crate) fn replies(&self) -> usize
        ensures { result ≡ length self.now.replies }
    {
        self.replies.len()
    }

    /// How many bytes of them wait.
    pub(crate) fn bytes(&self) -> u64
        ensures value { result ≡ length (data_of self.now) }
        ensures few { result ≤ 2 ^ 62 }
    {
        self.replies.bytes()
    }

    /// Adds a part.
    pub(crate) fn add(&mut self, given: Given) -> Result<(), Memory>
        requires { IsShortGiven given }
        ensures ok { OnOk result (self.new ≡ with_given self.old given) }
        ensures err { OnErr result (self.new ≡ self.old) }
    {
        match given {
            Given::Head(head) => self.head = Some(head),
            Given::Reply(reply) => self.replies.push(reply)?,
            Given::Tail(block) => self.tail = Some(block),
            Given::Reset(code) => self.resets.push_back(code)?,
        }
        Ok(())
    }

    /// Takes away a part, which is next.
    pub(crate) fn advance(&mut self, part: Part)
        requires { IsNext self.old part }
        ensures { self.new ≡ without self.old part }
    {
        match part {
            Part::Head { .. } => self.head = None,
            Part::Body { len } => self.replies.advance(len as usize),
            Part::Tail => self.tail = None,
            Part::Reset { .. } => {
                self.resets.pop_front();
            }
        }
    }

    /// Appends the frame of a part, which is next. Where memory is refused, `out` is as it was.
    pub(crate) fn put(
        &self,
        out: &mut Vec<u8>,
        id: u32,
        part: Part,
        first: bool,
    ) -> Result<(), Memory>
        requires next { IsNext self.now part }
        requires stream { IsStreamId id }
        ensures ok { OnOk result (out.new.items ≡ out.old.items ++ spelling (frame_of first id self.now part)) }
        ensures err { OnErr result (out.new.items ≡ out.old.items) }
        ensures writable { IsWritable (frame_of first id self.now part) }
        ensures in_range { IsInRange (frame_of first id self.now part) }
    {
        match part {
            Part::Head { end } => match &self.head {
                Some(head) => put_headers(out, id, end, first, head.block.bytes()),
                None => unreachable!(),
            },
            Part::Body { len } => put_data(out, id, &self.replies, len),
            Part::Tail => match &self.tail {
                Some(block) => put_headers(out, id, true, first, block.bytes()),
                None => unreachable!(),
            },
            Part::Reset { code } => put_reset(out, id, code),
        }
    }
}

// How many bytes a window lets a frame carry.
fn open(window: i64) -> u32
    ensures { IsOpen window result }
{
    if window <= 0 {
        0
    } else if window < i64::from(MAX_FRAME_SIZE) {
        window as u32
    } else {
        MAX_FRAME_SIZE
    }
}

// How many bytes DATA carry, or 0 where they can't carry any.
fn body_len(room: u32, connection: i64, window: i64, waiting: u64) -> u32
    ensures { IsGreatestLen room connection window waiting result }
{
    let most = room
        .saturating_sub(HEADER_LEN as u32)
        .min(open(connection))
        .min(open(window));
    u64::from(most).min(waiting) as u32
}

// Whether HEADERS with this block fit the room.
fn headers_fit(block: &Blob, first: bool, room: u32) -> bool
    requires { length block.now < max_frame_size }
    ensures { result ≡ nat_le (9 + length (block_of first block.now)) room }
{
    HEADER_LEN + usize::from(first) + block.len() <= room as usize
}

impl Queue {
    // The next part where no HEADERS wait before the replies, and a byte of these waits.
    fn next_body<L: Limits>(
        &self,
        id: u32,
        limits: &L,
        connection: i64,
        first: bool,
        room: u32,
    ) -> Option<Part>
        requires head { self.now.head ≡ None }
        requires some { 0 < length (data_of self.now) }
        ensures { IsNextPart (bounds_of (L.windows limits.now) (L.holds limits.now) connection first room) id self.now result }
    {
        let window = limits.send_window(id);
        let len = body_len(room, connection, window, self.replies.bytes());
        (len > 0).then_some(Part::Body { len })
    }

    /// The part whose frame is due and fits the room.
    pub(crate) fn next<L: Limits>(
        &self,
        id: u32,
        limits: &L,
        connection: i64,
        first: bool,
        room: u32,
    ) -> Option<Part>
        ensures { IsNextPart (bounds_of (L.windows limits.now) (L.holds limits.now) connection first room) id self.now result }
    {
        if let Some(head) = &self.head {
            let end = head.end;
            return headers_fit(&head.block, first, room).then_some(Part::Head { end });
        }
        if self.replies.bytes() > 0 {
            return self.next_body(id, limits, connection, first, room);
        }
        if let Some(block) = &self.tail {
            return headers_fit(block, first, room).then_some(Part::Tail);
        }
        match self.resets.front() {
            Some(code) if room >= RESET_LEN && !limits.is_held(id) => {
                Some(Part::Reset { code: *code })
            }
            _ => None,
        }
    }
}
