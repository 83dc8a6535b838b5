//! Giving answers.

ghost use Rattle.std.specs.Prelude.{◌≡◌, ◌≤◌, ◌<◌, ◌^◌, [], ◌∷◌, ◌++◌, option_to_list, length, IsSome, IfOk, OnOk, OnErr, true};
ghost use Rattle.std.specs.List.{flat_map, AllByRecursion};
ghost use Rattle.std.specs.Option.{ForSome};
ghost use Rattle.hpack_blocks.specs.Spelling.{block_spelling, field_spelling};
ghost use Rattle.h2_frames.specs.Header.{max_frame_size};
ghost use Rattle.h2_frames.specs.Sound.{IsStreamId};
ghost use Rattle.h2_streams.specs.Book.{find};
ghost use Rattle.h2_answers.specs.Waiting.{nothing, waiting_on, IsOpenEnded};
ghost use Rattle.h2_record.specs.Record.{Record, Given, Whole, Broken, Head, Reply, Tail, Abort};
ghost use Rattle.h2_record.specs.Faults.{first_fault_of};
ghost use Rattle.h2_conn.specs.Stands.{Stands};
ghost use Rattle.h2_conn.specs.Latest.{latest_credit};
ghost use Rattle.h2_conn.specs.Within.{FitsFrame};

use crate::conn::Conn;
use h2_frames::H2Fault;
use h2_record::Control;
use h2_record::limits::MOST_WAITING;
use h2_streams::Streams;
use hpack_blocks::{Field, write_block};
use outside::{Blob, Memory};
use std::alloc::Global;
use std::collections::VecDeque;

// The block of fields, as a later one of the connection.
fn later_block(alloc: Global, fields: &[Field]) -> Result<Blob, Memory>
    requires { length (block_spelling true fields.now) ≤ max_frame_size }
    ensures spelled { IfOk result (λ block. block ≡ flat_map field_spelling fields.now) }
    ensures short { IfOk result (λ block. length block < max_frame_size) }
{
    let first = false;
    write_block(alloc, fields, first)
}

// A stream that lives has the id of a stream.
fn check_id(streams: &Streams, id: u32)
    requires live { IsSome (find streams.now id) }
    requires last { streams.now.last < 2 ^ 31 }
    ensures { IsStreamId id }
{
    match streams.window_of(id) {
        Some(_) => {}
        None => unreachable!(),
    }
}

impl Conn {
    /// Gives the HEADERS that begin the answer on a stream, with `end` where they are all of it. They are given once,
    /// before any other part, and their block, as the first of a connection too, has at most 16,384 bytes. After a
    /// connection error nothing is given. Where memory is refused, all is as it was.
    pub fn head(
        &mut self,
        alloc: Global,
        id: u32,
        fields: &[Field],
        end: bool,
    ) -> Result<(), Memory>
        requires live { IsSome (find self.old.streams id) }
        requires first { waiting_on self.old.answers id ≡ nothing }
        requires short { length (block_spelling true fields.now) ≤ max_frame_size }
        ensures stands { OnOk result ((r : Record) → Stands self.old r → Stands self.new (Given id (Head fields.now end) ∷ r)) }
        ensures err { OnErr result (self.new ≡ self.old) }
        ensures written { self.new.unwritten ≡ self.old.unwritten }
        ensures lost { self.new.is_lost ≡ self.old.is_lost }
    {
        if self.fault.is_some() {
            return Ok(());
        }
        check_id(&self.streams, id);
        let block = later_block(alloc, fields)?;
        self.answers.head(alloc, id, block, end)
    }

    /// Gives a reply, framed, on a stream whose answer goes on. One of no bytes has nothing to wait for. Where memory is
    /// refused, as where more than 2^62 bytes would wait on the stream, all is as it was.
    pub fn body(&mut self, alloc: Global, id: u32, message: Blob) -> Result<(), Memory>
        requires live { IsSome (find self.old.streams id) }
        requires open { IsOpenEnded (waiting_on self.old.answers id) }
        ensures stands { OnOk result ((r : Record) → Stands self.old r → Stands self.new (Given id (Reply message) ∷ r)) }
        ensures err { OnErr result (self.new ≡ self.old) }
        ensures written { self.new.unwritten ≡ self.old.unwritten }
        ensures lost { self.new.is_lost ≡ self.old.is_lost }
    {
        if self.fault.is_some() {
            return Ok(());
        }
        check_id(&self.streams, id);
        self.answers.body(alloc, id, message)
    }

    /// Gives the trailers, which end the answer on a stream. Their block, as the first of a connection too, has at most
    /// 16,384 bytes. Where memory is refused, all is as it was.
    pub fn tail(&mut self, alloc: Global, id: u32, fields: &[Field]) -> Result<(), Memory>
        requires live { IsSome (find self.old.streams id) }
        requires open { IsOpenEnded (waiting_on self.old.answers id) }
        requires short { length (block_spelling true fields.now) ≤ max_frame_size }
        ensures stands { OnOk result ((r : Record) → Stands self.old r → Stands self.new (Given id (Tail fields.now) ∷ r)) }
        ensures err { OnErr result (self.new ≡ self.old) }
        ensures written { self.new.unwritten ≡ self.old.unwritten }
        ensures lost { self.new.is_lost ≡ self.old.is_lost }
    {
        if self.fault.is_some() {
            return Ok(());
        }
        check_id(&self.streams, id);
        let block = later_block(alloc, fields)?;
        self.answers.tail(alloc, id, block)
    }

    /// Gives a reset of a stream behind all that was given on it, with this error code of RFC 9113 section 7. Where
    /// memory is refused, all is as it was.
    pub fn reset(&mut self, alloc: Global, id: u32, code: u32) -> Result<(), Memory>
        requires live { IsSome (find self.old.streams id) }
        requires open { IsOpenEnded (waiting_on self.old.answers id) }
        ensures stands { OnOk result ((r : Record) → Stands self.old r → Stands self.new (Given id (Abort code) ∷ r)) }
        ensures err { OnErr result (self.new ≡ self.old) }
        ensures written { self.new.unwritten ≡ self.old.unwritten }
        ensures lost { self.new.is_lost ≡ self.old.is_lost }
    {
        if self.fault.is_some() {
            return Ok(());
        }
        check_id(&self.streams, id);
        self.answers.reset(alloc, id, code)
    }
}

// Control frames wait behind the others, or none does.
fn push_both(
    control: &mut VecDeque<Control>,
    first: Option<Control>,
    second: Control,
) -> Result<(), Memory>
    requires fit { AllByRecursion FitsFrame control.old.items }
    requires first { ForSome first FitsFrame }
    requires second { FitsFrame second }
    ensures ok { OnOk result (control.new.items ≡ control.old.items ++ option_to_list first ++ second ∷ []) }
    ensures err { OnErr result (control.new.items ≡ control.old.items) }
    ensures fit { AllByRecursion FitsFrame control.new.items }
{
    let Some(credit) = first else {
        control.push_back(second)?;
        return Ok(());
    };
    control.push_back(credit)?;
    if control.push_back(second).is_err() {
        control.pop_back();
        return Err(Memory);
    }
    Ok(())
}

impl Conn {
    // The credit of the latest frame, where it is given.
    pub(crate) fn latest_credit(&self) -> Option<Control>
        ensures value { result ≡ latest_credit self.now }
        ensures fits { ForSome result FitsFrame }
    {
        let owed = self.owed?;
        if self.answers.replies_waiting(owed.stream) < MOST_WAITING {
            Some(Control::Credit {
                stream: owed.stream,
                add: owed.bytes,
            })
        } else {
            None
        }
    }

    /// The connection error that was met, if one was: the code of the first frame that broke a rule, and the least rule
    /// that it broke, as docs/HTTP2.md numbers them.
    pub fn first_fault(&self) -> Option<H2Fault>
        ensures { (r : Record) → Stands self.now r → result ≡ first_fault_of r }
    {
        self.fault
    }

    /// The latest frame made a request whole. The count of frames that ask for nothing starts anew.
    pub fn request_whole(&mut self)
        ensures stands { (r : Record) → Stands self.old r → Stands self.new (Whole ∷ r) }
        ensures written { self.new.unwritten ≡ self.old.unwritten }
        ensures lost { self.new.is_lost ≡ self.old.is_lost }
    {
        self.flood = 0;
    }

    /// In place of a frame came bytes that break a rule of framing, which is a connection error: GOAWAY waits behind the
    /// control frames that wait, and all else is dropped. After another connection error nothing changes. Where memory
    /// is refused, all is as it was.
    pub fn fault(&mut self, _alloc: Global, fault: H2Fault) -> Result<(), Memory>
        ensures stands { OnOk result ((r : Record) → Stands self.old r → Stands self.new (Broken fault ∷ r)) }
        ensures err { OnErr result (self.new ≡ self.old) }
        ensures written { self.new.unwritten ≡ self.old.unwritten }
        ensures lost { self.new.is_lost ≡ self.old.is_lost }
    {
        if self.fault.is_some() {
            return Ok(());
        }
        let goaway = Control::Goaway {
            last: self.streams.last(),
            code: fault.code,
        };
        let credit = self.latest_credit();
        push_both(&mut self.control, credit, goaway)?;
        self.answers.clear();
        self.fault = Some(fault);
        Ok(())
    }
}
