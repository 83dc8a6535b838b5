//! The parts of an answer that go.

ghost use Rattle.std.specs.Prelude.{◌≡◌, ◌<◌, ◌^◌, ◌++◌, IsSome, OnOk, OnErr, true};
ghost use Rattle.h2_frames.specs.Sound.{IsStreamId};
ghost use Rattle.h2_streams.specs.Book.{find};
ghost use Rattle.h2_streams.specs.Calls.{reset_in};
ghost use Rattle.h2_answers.specs.declared.part.Part.TheVariants as part;
ghost use Rattle.h2_answers.specs.Due.{IsAhead};
ghost use Rattle.h2_frames.specs.Spelling.{spelling};
ghost use Rattle.h2_conn.specs.Appended.{BeginsAs};
ghost use Rattle.h2_conn.specs.Parts.{part_frame, PartTaken, PartGoes, LeavesPart, IsWithinWindows, Closes, Finishes, ResetsOf, Frees, Spends};

use crate::conn::Conn;
use crate::produce::counted;
use h2_answers::{Due, Part};
use h2_record::Control;
use h2_record::codes::NO_ERROR;
use h2_record::limits::MOST_WAITING;
use h2_streams::StreamState;
use outside::Memory;
use std::alloc::Global;

impl Conn {
    // A part of an answer goes, which is next on its stream and within the windows: its frame is appended. Where memory
    // is refused, some of `out` may be appended.
    pub(crate) fn produce_part(
        &mut self,
        alloc: Global,
        out: &mut Vec<u8>,
        due: Due,
    ) -> Result<(), Memory>
        requires ahead { IsAhead self.old.answers due }
        requires windows { IsWithinWindows self.old due.stream due.part }
        ensures spelled { OnOk result (out.new.items ≡ out.old.items ++ spelling (part_frame self.old due)) }
        ensures goes { OnOk result (PartGoes self.old due (spelling (part_frame self.old due)) self.new) }
        ensures err { OnErr result (BeginsAs out.old.items out.new.items) }
    {
        self.take_part(out, due)?;
        self.leave_part(alloc, due)?;
        Ok(())
    }

    // Its bytes are taken from what waits.
    fn take_part(&mut self, out: &mut Vec<u8>, due: Due) -> Result<(), Memory>
        requires { IsAhead self.old.answers due }
        ensures spelled { OnOk result (out.new.items ≡ out.old.items ++ spelling (part_frame self.old due)) }
        ensures taken { OnOk result (PartTaken self.old due (spelling (part_frame self.old due)) self.new) }
        ensures err { OnErr result (BeginsAs out.old.items out.new.items) }
    {
        let before = out.len();
        self.answers.take_into(out, due, !self.has_headed)?;
        self.unwritten = counted(self.unwritten, out.len() - before)?;
        Ok(())
    }

    // What it leaves behind itself.
    fn leave_part(&mut self, alloc: Global, due: Due) -> Result<(), Memory>
        requires stream { IsStreamId due.stream }
        requires windows { IsWithinWindows self.old due.stream due.part }
        ensures { OnOk result (LeavesPart due.part self.old due.stream self.new) }
    {
        match due.part {
            Part::Head { end } => {
                self.has_headed = true;
                if end {
                    self.finish(alloc, due.stream)?;
                }
                Ok(())
            }
            Part::Tail => {
                self.has_headed = true;
                self.finish(alloc, due.stream)
            }
            Part::Body { len } => self.spend(due.stream, len),
            Part::Reset { code: _ } => {
                self.close_reset(due.stream);
                Ok(())
            }
        }
    }

    // The answer is whole: the stream is closed where the client has ended it, and else reset (RFC 9113 section 8.1).
    fn finish(&mut self, alloc: Global, id: u32) -> Result<(), Memory>
        requires { IsStreamId id }
        ensures { OnOk result (Finishes self.old id self.new) }
    {
        match self.streams.state_of(id) {
            StreamState::Live => self.refuse(alloc, id, NO_ERROR),
            StreamState::Ended => {
                self.close(id, false);
                Ok(())
            }
            _ => Ok(()),
        }
    }

    // A live stream is closed: what waits on it and what is kept of it are dropped.
    fn close(&mut self, id: u32, by_server: bool)
        requires { IsSome (find self.old.streams id) }
        ensures { Closes self.old id (reset_in self.old.streams id by_server) self.new }
    {
        self.streams.reset(id, by_server);
        self.kept.remove(id);
        self.answers.drop_all_of(id);
    }

    // A reset that the caller gave went: the stream is closed.
    fn close_reset(&mut self, id: u32)
        ensures { ResetsOf self.old id self.new }
    {
        if self.streams.is_live(id) {
            self.close(id, true);
        }
    }

    // DATA went.
    fn spend(&mut self, id: u32, len: u32) -> Result<(), Memory>
        requires small { id < 2 ^ 31 }
        requires windows { IsWithinWindows self.old id (part.Body len) }
        ensures { OnOk result (Spends self.old id len self.new) }
    {
        self.window.spend(len);
        if !self.streams.is_live(id) {
            return Ok(());
        }
        self.streams.spend(id, len);
        self.free(id)
    }

    // The credit that is kept of a stream waits to go, where few replies wait.
    fn free(&mut self, id: u32) -> Result<(), Memory>
        requires { id < 2 ^ 31 }
        ensures { OnOk result (Frees self.old id self.new) }
    {
        let sum = self.kept.of(id);
        if sum == 0 || MOST_WAITING <= self.answers.replies_waiting(id) {
            return Ok(());
        }
        self.control.push_back(Control::Credit {
            stream: id,
            add: sum,
        })?;
        self.kept.remove(id);
        Ok(())
    }
}
