//! Closing a live stream.

ghost use Rattle.std.specs.Prelude.{◌≡◌, ℕ, nat_eq, if◌then◌else◌, IsSome, [], ◌∷◌, OnOk};
ghost use Rattle.h2_frames.specs.Sound.{IsStreamId};
ghost use Rattle.h2_streams.specs.Book.{find, without, without_reset};
ghost use Rattle.h2_answers.specs.Waiting.{ChangesOnly, nothing};
ghost use Rattle.h2_conn.specs.KeptCredit.{KeptOnly};
ghost use Rattle.h2_conn.specs.Taking.{Refuses};

use crate::conn::Conn;
use crate::kept_credit::KeptCredit;
use h2_answers::Answers;
use h2_streams::Streams;
use outside::Memory;
use std::alloc::Global;

// The server resets a live stream: what waits on it is dropped, and RST_STREAM waits.
pub(crate) fn reset_live(
    alloc: Global,
    streams: &mut Streams,
    answers: &mut Answers,
    kept: &mut KeptCredit,
    id: u32,
    code: u32,
) -> Result<(), Memory>
    requires stream { IsStreamId id }
    requires live { IsSome (find streams.old id) }
    ensures streams { streams.new ≡ without_reset streams.old id }
    ensures kept { KeptOnly kept.old kept.new id 0 }
    ensures answers { OnOk result (ChangesOnly answers.old answers.new id (record nothing { resets = code ∷ [] })) }
{
    streams.reset(id, true);
    kept.remove(id);
    answers.drop_all_of(id);
    answers.reset(alloc, id, code)?;
    Ok(())
}

// The client resets a live stream: what waits on it is dropped.
pub(crate) fn cancel_live(
    streams: &mut Streams,
    answers: &mut Answers,
    kept: &mut KeptCredit,
    id: u32,
)
    requires { IsSome (find streams.old id) }
    ensures streams { streams.new ≡ without streams.old id }
    ensures kept { KeptOnly kept.old kept.new id 0 }
    ensures answers { ChangesOnly answers.old answers.new id nothing }
{
    streams.reset(id, false);
    kept.remove(id);
    answers.drop_all_of(id);
}

impl Conn {
    // The server resets a live stream.
    pub(crate) fn refuse(&mut self, alloc: Global, stream: u32, code: u32) -> Result<(), Memory>
        requires stream { IsStreamId stream }
        requires live { IsSome (find self.old.streams stream) }
        ensures { OnOk result (Refuses self.old stream code self.new) }
    {
        reset_live(
            alloc,
            &mut self.streams,
            &mut self.answers,
            &mut self.kept,
            stream,
            code,
        )?;
        Ok(())
    }
}
