//! What waits to be written, what may be given, and what was written.

ghost use Rattle.std.specs.Prelude.{◌≡◌, ◌==◌, ◌≤◌, ◌<◌, ◌-◌, ◌^◌, ◌-ℤ◌, ◌≤ℤ◌, pos, min, IsSome, None};
ghost use Rattle.std.specs.Int.{int_min};
ghost use Rattle.h2_flow.specs.Range.{least};
ghost use Rattle.h2_streams.specs.Book.{find};
ghost use Rattle.h2_record.specs.Record.{Record};
ghost use Rattle.h2_record.specs.Faults.{first_fault_of};
ghost use Rattle.h2_record.specs.Replies.{waiting_of};
ghost use Rattle.h2_record.specs.Room.{room_in};
ghost use Rattle.h2_conn.specs.Stands.{Stands};

use crate::conn::Conn;
use h2_flow::Window;

// The lesser of two windows, less what waits.
fn room_left(stream: i64, connection: Window, waiting: u64) -> i64
    requires stream { least ≤ℤ stream }
    requires few { waiting ≤ 2 ^ 62 }
    ensures { result ≡ int_min stream connection -ℤ pos waiting }
{
    stream.min(connection.value()) - waiting as i64
}

impl Conn {
    /// How many bytes may still be given on a stream so that they can go at once: the lesser of its send window and the
    /// connection's, less the bytes that wait on it. It may be negative.
    pub fn room_of(&self, id: u32) -> i64
        requires live { IsSome (find self.now.streams id) }
        ensures { (r : Record) → Stands self.now r → first_fault_of r ≡ None → result ≡ room_in r id }
    {
        let stream = self.streams.send_of(id);
        room_left(stream, self.window, self.answers.bytes_waiting(id))
    }

    /// How many replies wait on a stream: those of which a byte isn't produced. The count stands still at its type's end.
    pub fn waiting(&self, id: u32) -> u32
        ensures { (r : Record) → Stands self.now r → first_fault_of r ≡ None → result ≡ min (waiting_of r id) (2 ^ 32 - 1) }
    {
        self.answers.replies_waiting(id)
    }

    /// Whether all bytes that were produced are counted as written.
    pub fn all_written(&self) -> bool
        ensures { result ≡ (self.now.unwritten == 0) }
    {
        self.unwritten == 0
    }

    /// Counts bytes as written, which are at most those that were produced and aren't counted yet.
    pub fn wrote(&mut self, n: u32)
        requires { n ≤ self.old.unwritten }
        ensures counted { self.new ≡ record self.old { unwritten = self.old.unwritten - n } }
        ensures stands { (r : Record) → Stands self.old r → Stands self.new r }
    {
        self.unwritten -= u64::from(n);
    }
}
