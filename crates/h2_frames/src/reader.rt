//! The reader of frames.

ghost use Rattle.std.specs.Prelude.{◌≡◌, ◌≤◌, [], length, false, OnOk, OnErr, IfOk};

use crate::fault::H2Fault;
use crate::frame::Frame;
use crate::header::{HEADER_LEN, Header, MAX_FRAME_SIZE};
use crate::payload::{FRAME_SIZE_ERROR, PROTOCOL_ERROR, fault_in, frame_of};
use crate::preface::{PREFACE, preface_next};
use outside::Memory;
use std::alloc::Global;
use std::marker::Model;

/// What a reader answers.
#[derive(Drop)]
pub enum Next {
    /// The next frame. Its bytes are held no more.
    Frame(Frame),
    /// No whole frame is held, and no fault: feed it further.
    More,
    /// The stream breaks a rule; each later answer is the same.
    Fault(H2Fault),
}

/// A reader of a client's frames: fed the stream in pieces, however it is cut, it gives the frames of the whole.
///
/// It wants the preface first. It holds one unfinished preface or frame and nothing behind it.
#[derive(Drop)]
pub struct FrameReader {
    /// Whether the preface has come.
    started: bool,
    /// The preface or the header so far.
    front: Vec<u8>,
    /// The payload so far. It becomes the frame's own bytes, so no byte is copied again.
    payload: Vec<u8>,
}

impl Model for FrameReader {
    ghost use Rattle.std.specs.Prelude.{◌++◌};
    ghost use Rattle.h2_frames.specs.Held.{Held};
    ghost use Rattle.h2_frames.specs.Kept.{IsKept};

    ghost Value = { Held };

    ghost view = { λ r. record { started = r.started; bytes = r.front.items ++ r.payload.items } };

    ghost invariant = { λ r. IsKept r.started r.front.items r.payload.items };
}

impl FrameReader {
    ghost use Rattle.h2_frames.specs.Held.{Held};
    ghost use Rattle.h2_frames.specs.Answer.{Answers};
    ghost use Rattle.h2_frames.specs.Reading.{next_of, held_after, held_with, need_of};

    /// A reader that wants the preface.
    pub fn new(alloc: Global) -> FrameReader
        ensures { result ≡ record { started = false; bytes = [] } }
    {
        FrameReader {
            started: false,
            front: Vec::new(alloc),
            payload: Vec::new(alloc),
        }
    }

    /// The bytes still missing for the preface, for a frame's nine bytes or for its payload.
    pub fn need(&self) -> usize
        ensures { result ≡ need_of self.now }
    {
        if !self.started {
            return PREFACE.len() - self.front.len();
        }
        match Header::of(&self.front) {
            Err(_) => HEADER_LEN - self.front.len(),
            Ok(header) => header.length as usize - self.payload.len(),
        }
    }

    /// The bytes held of the unfinished preface or frame.
    pub fn held(&self) -> usize
        ensures { result ≡ length self.now.bytes }
    {
        self.front.len() + self.payload.len()
    }

    /// Takes the next piece of the stream. Where memory is refused, nothing is taken.
    pub fn feed(&mut self, _alloc: Global, bytes: &[u8]) -> Result<(), Memory>
        requires { length bytes.now ≤ need_of self.old }
        ensures ok { OnOk result (self.new ≡ held_with self.old bytes.now) }
        ensures err { OnErr result (self.new ≡ self.old) }
    {
        if self.started {
            if self.front.len() < HEADER_LEN {
                self.front.extend_from_slice(bytes)?;
                return Ok(());
            }
            let need = self.need();
            self.payload.reserve_exact(need)?;
            self.payload.extend_from_slice(bytes)?;
            return Ok(());
        }
        self.front.extend_from_slice(bytes)?;
        if self.front.starts_with(PREFACE) {
            self.started = true;
            self.front.clear();
            return Ok(());
        }
        Ok(())
    }

    /// The next frame, or why there is none. Where memory is refused, nothing is taken.
    pub fn next(&mut self, alloc: Global) -> Result<Next, Memory>
        ensures ok { IfOk result (λ next. next ≡ next_of self.old) }
        ensures after { IfOk result (λ next. self.new ≡ held_after self.old next) }

        // A frame is spelled by the bytes that are held no more.
        ensures spelled { IfOk result (λ next. Answers next self.old.bytes self.new.bytes) }
        ensures err { OnErr result (self.new ≡ self.old) }
    {
        self.answer(alloc)
    }

    fn answer(&mut self, alloc: Global) -> Result<Next, Memory>
        ensures ok { IfOk result (λ next. next ≡ next_of self.old) }
        ensures after { IfOk result (λ next. self.new ≡ held_after self.old next) }
        ensures err { OnErr result (self.new ≡ self.old) }
    {
        if !self.started {
            return Ok(preface_next(&self.front));
        }
        let Ok(header) = Header::of(&self.front) else {
            return Ok(Next::More);
        };
        if header.length > MAX_FRAME_SIZE {
            return Ok(Next::Fault(H2Fault {
                code: FRAME_SIZE_ERROR,
                rule: 2,
            }));
        }
        if self.payload.len() < header.length as usize {
            return Ok(Next::More);
        }
        if let Some(fault) = fault_in(&header, &self.payload) {
            return Ok(Next::Fault(fault));
        }
        let frame = frame_of(alloc, &header, &mut self.payload)?;
        self.front.clear();
        self.payload.clear();
        Ok(Next::Frame(frame))
    }
}
