//! Producing the bytes that are written.

ghost use Rattle.std.specs.Prelude.{◌≡◌, ◌==◌, ◌+◌, ◌<◌, ◌≤◌, true, false, not, length, IsSome, None, Some, IfOk, OnOk, OnErr};
ghost use Rattle.h2_answers.specs.Due.{IsNextDue};
ghost use Rattle.h2_conn.specs.Appended.{Appended, BeginsAs};
ghost use Rattle.h2_conn.specs.Produces.{Goes, Rests, ProducesInto};
ghost use Rattle.h2_conn.specs.Producing.{first_of, waiting_control, bounds_in, IsNextIn, FitsTo, Leaves, ControlGoes};

use crate::bounds::StreamBounds;
use crate::conn::Conn;
use crate::control::{len_of, put_control};
use crate::next::Next;
use h2_answers::Due;
use h2_record::Control;
use h2_streams::Streams;
use outside::{Blob, Memory};
use std::alloc::Global;
use std::collections::VecDeque;

// The count of unwritten bytes with those of a frame.
pub(crate) fn counted(unwritten: u64, len: usize) -> Result<u64, Memory>
    ensures { IfOk result (λ sum. sum ≡ unwritten + len) }
{
    unwritten.checked_add(len as u64).ok_or(Memory)
}

// WINDOW_UPDATE on a live stream lets more come on it. No more is given than came before, so that the window holds it.
fn credit(streams: &mut Streams, control: Control)
    ensures { Leaves control streams.old streams.new }
{
    if let Control::Credit { stream, add } = control {
        if streams.is_live(stream) {
            let _ = streams.credit(stream, add);
        }
    }
}

// The first of the control frames that wait.
fn front_of(waiting: &VecDeque<Control>) -> Option<Control>
    ensures { result ≡ first_of waiting.now.items }
{
    match waiting.front() {
        Some(control) => Some(*control),
        None => None,
    }
}

// Whether there is one, and it fits.
fn fits(first: Option<Control>, room: u32) -> bool
    ensures { FitsTo first room result }
{
    match first {
        Some(control) => len_of(control) <= room,
        None => false,
    }
}

impl Conn {
    /// The next frame to write, whole, and at most `room` bytes of it; none exactly where no frame that is due fits.
    ///
    /// Control frames go in their order, HEADERS, DATA within both windows, and resets behind all that waits on their
    /// stream (RFC 9113 sections 5.1, 5.2 and 6). While the first SETTINGS wait, and behind a connection error, only
    /// control frames go. DATA fit where there is room for ten bytes, and any other frame where there is room for all
    /// of it.
    ///
    /// Where memory is refused, as where more than 2^64-1 bytes would be unwritten, every further call of `take` and
    /// `produce` is answered so.
    pub fn produce(&mut self, alloc: Global, room: u32) -> Result<Blob, Memory>
        ensures goes { IfOk result (λ bytes. (length bytes == 0) ≡ false → Goes self.old room bytes self.new) }
        ensures rests { IfOk result (λ bytes. (length bytes == 0) ≡ true → Rests self.old room self.new) }
        ensures lost { OnErr result (self.new.is_lost ≡ true) }
        ensures stays_lost { self.old.is_lost ≡ true → OnOk result ⊥ }
    {
        let mut bytes = Vec::new(alloc);
        self.produce_into(alloc, &mut bytes, room)?;
        Ok(Blob::from_vec(bytes))
    }

    /// The same, appended to `out`, and whether there was a frame. Where memory is refused, `out` is as it was.
    ///
    /// Each byte of a reply is copied once, and no memory is asked for but what `out` grows by, what the frames wait in
    /// that this one calls for, and two pairs for the server's first SETTINGS.
    pub fn produce_into(
        &mut self,
        alloc: Global,
        out: &mut Vec<u8>,
        room: u32,
    ) -> Result<bool, Memory>
        ensures produced { IfOk result (λ went. ProducesInto self.old room went out.old.items out.new.items self.new) }
        ensures same { OnErr result (out.new.items ≡ out.old.items) }
        ensures lost { OnErr result (self.new.is_lost ≡ true) }
        ensures stays_lost { self.old.is_lost ≡ true → OnOk result ⊥ }
    {
        if self.is_lost {
            return Err(Memory);
        }
        let before = out.len();
        match self.produce_next(alloc, out, room) {
            Ok(went) => Ok(went),
            Err(Memory) => {
                self.is_lost = true;
                out.truncate(before);
                Err(Memory)
            }
        }
    }

    // The same, where memory wasn't refused before. Where it is now, some of `out` may be appended.
    fn produce_next(&mut self, alloc: Global, out: &mut Vec<u8>, room: u32) -> Result<bool, Memory>
        ensures ok { IfOk result (λ went. ProducesInto self.old room went out.old.items out.new.items self.new) }
        ensures err { OnErr result (BeginsAs out.old.items out.new.items) }
    {
        if self.fault.is_some() {
            return self.produce_last(alloc, out, room);
        }
        match self.next(room) {
            Next::Nothing => Ok(false),
            Next::Control => {
                self.settle()?;
                self.produce_control(alloc, out)?;
                Ok(true)
            }
            Next::Part(due) => {
                self.settle()?;
                self.produce_part(alloc, out, due)?;
                Ok(true)
            }
        }
    }

    // The same behind a connection error.
    fn produce_last(&mut self, alloc: Global, out: &mut Vec<u8>, room: u32) -> Result<bool, Memory>
        requires { IsSome self.old.fault }
        ensures ok { IfOk result (λ went. ProducesInto self.old room went out.old.items out.new.items self.new) }
        ensures err { OnErr result (BeginsAs out.old.items out.new.items) }
    {
        if !fits(front_of(&self.control), room) {
            return Ok(false);
        }
        self.produce_control(alloc, out)?;
        Ok(true)
    }

    // The first of the control frames that wait goes.
    fn produce_control(&mut self, alloc: Global, out: &mut Vec<u8>) -> Result<(), Memory>
        requires { IsSome (first_of self.old.control) }
        ensures ok { OnOk result (Appended out.old.items out.new.items (λ bytes. ControlGoes self.old bytes self.new)) }
        ensures err { OnErr result (out.new.items ≡ out.old.items) }
    {
        match self.control.pop_front() {
            Some(control) => {
                self.unwritten = counted(self.unwritten, len_of(control) as usize)?;
                put_control(alloc, out, control)?;
                credit(&mut self.streams, control);
                Ok(())
            }
            None => unreachable!(),
        }
    }

    // The first of the control frames that wait, the credit of the latest frame among them.
    fn first_control(&self) -> Option<Control>
        ensures { result ≡ first_of (waiting_control self.now) }
    {
        match self.control.front() {
            Some(control) => Some(*control),
            None => self.latest_credit(),
        }
    }

    // The next part of an answer that is due and fits.
    fn next_part(&self, room: u32) -> Option<Due>
        ensures { IsNextDue (bounds_in self.now room) self.now.answers result }
    {
        let bounds = StreamBounds {
            streams: &self.streams,
            control: &self.control,
            latest: self.latest_credit(),
        };
        self.answers
            .next(&bounds, self.window.value(), !self.has_headed, room)
    }

    // What goes next.
    fn next(&self, room: u32) -> Next
        ensures { IsNextIn self.now room result }
    {
        let first = self.first_control();
        if let Some(control) = first {
            if len_of(control) <= room {
                return Next::Control;
            }
        }
        if let Some(Control::Settings) = first {
            return Next::Nothing;
        }
        match self.next_part(room) {
            Some(due) => Next::Part(due),
            None => Next::Nothing,
        }
    }
}
