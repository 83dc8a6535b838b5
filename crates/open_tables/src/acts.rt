//! Commands to a table, and looks at it, by its pass.

ghost use Rattle.std.specs.Prelude.{◌≡◌, ◌<◌, ◌≤◌, ◌≤ℤ◌, Bool, length, slice_get, Some, IfOk, OnErr};
ghost use Rattle.std.specs.List.{insert};
ghost use Rattle.std.specs.Vec.{vec_len, vec_capacity};
ghost use Rattle.table_model.specs.declared.limits.TheConstants.{LATEST_READING};
ghost use Rattle.table_model.specs.declared.replies.Reply.{Reply as AReply};
ghost use Rattle.table_spec.specs.declared.spec.TableSpec.{TableSpec};
ghost use Rattle.open_tables.specs.Tables.{AreTheirs, specs_of, TakesAt};
ghost use Rattle.open_tables.specs.Plans.{At, Gets, SeesAt, Loses, on_command, on_stream};
ghost use Rattle.open_tables.specs.Looked.{LooksAt};
ghost use Rattle.open_tables.specs.Found.{is_found};

use crate::{Passes, Tables};
use outside::Memory;
use std::alloc::Global;
use std::sync::Wait;
use table_engine::{Engine, Held, Key};
use table_model::{Command, Reply, StreamRef};
use turn_table::Pass;

// Whether the reply is a stream.
fn is_found(reply: &Reply) -> bool
    ensures { result ≡ is_found reply.now }
{
    matches!(reply, Reply::Stream { .. })
}

// Puts a pass back in the place from which it was taken.
fn put_back(each: &mut Vec<Pass<Engine>>, at: usize, pass: Pass<Engine>)
    requires place { at ≤ vec_len each.old }
    requires room { vec_len each.old < vec_capacity each.old }
    ensures { each.new.items ≡ insert each.old.items at pass }
{
    if each.insert(at, pass).is_err() {
        unreachable!()
    }
}

impl Tables {
    /// Takes a turn at the table of this place, which answers a command. `now` is a reading of the clock, in
    /// microseconds since 1970-01-01.
    ///
    /// Whatever the reply is told as, the request that asked for it gets that answer. At want of memory no entry was
    /// added. Where the caller can't tell the reply for want of memory, the answer is lost.
    pub fn act<R: Wait, A>(
        &self,
        rt: &R,
        alloc: Global,
        place: u32,
        mut passes: Passes,
        command: Command,
        now: i64,
    ) -> (Passes, Result<Reply, Memory>)
        requires place { place < length self.now }
        requires theirs { AreTheirs self.now passes }
        requires taken { TakesAt (specs_of self.now) place command }
        requires in_time { now ≤ℤ LATEST_READING }
        ensures theirs { AreTheirs self.now result.0 }
        ensures gets { IfOk result.1 (λ reply. (spec : TableSpec) → slice_get (specs_of self.now) place ≡ Some spec → (told : AReply → A) → Gets passes (At place (on_command spec.schema command told)) now (told reply) result.0) }
        ensures sees { OnErr result.1 (SeesAt passes place result.0) }
        ensures loses { (spec : TableSpec) → slice_get (specs_of self.now) place ≡ Some spec → (told : AReply → A) → Loses passes (At place (on_command spec.schema command told)) now result.0 }
    {
        let at = place as usize;
        let pass = passes.each.remove(at);
        let (pass, told) = self.turn(place).act(rt, alloc, pass, command, now);
        put_back(&mut passes.each, at, pass);
        (passes, told)
    }

    /// Takes a turn at the table of this place, which says whether it has this write stream. `now` is a reading of the
    /// clock, in microseconds since 1970-01-01. No entry is added.
    pub fn has_stream<R: Wait, A>(
        &self,
        rt: &R,
        alloc: Global,
        place: u32,
        passes: Passes,
        stream: StreamRef,
        now: i64,
    ) -> (Passes, Result<bool, Memory>)
        requires place { place < length self.now }
        requires theirs { AreTheirs self.now passes }
        requires in_time { now ≤ℤ LATEST_READING }
        ensures theirs { AreTheirs self.now result.0 }
        ensures gets { IfOk result.1 (λ found. (told : Bool → A) → Gets passes (At place (on_stream stream told)) now (told found) result.0) }
        ensures sees { OnErr result.1 (SeesAt passes place result.0) }
        ensures loses { (told : Bool → A) → Loses passes (At place (on_stream stream told)) now result.0 }
    {
        let get = Command::Get { stream };
        let (passes, reply) = self.act::<R, A>(rt, alloc, place, passes, get, now);
        match reply {
            Ok(reply) => (passes, Ok(is_found(&reply))),
            Err(memory) => (passes, Err(memory)),
        }
    }

    /// Takes a turn at the table of this place, for a look at a node of a session: None exactly where the history has no
    /// such session, or the session no such node. No entry is added.
    ///
    /// At want of memory the pass has seen a point of the history too.
    pub fn look<R: Wait>(
        &self,
        rt: &R,
        place: u32,
        mut passes: Passes,
        session: u32,
        node: u32,
    ) -> (Passes, Result<Option<Held>, Memory>)
        requires place { place < length self.now }
        requires theirs { AreTheirs self.now passes }
        ensures theirs { AreTheirs self.now result.0 }
        ensures looks { IfOk result.1 (λ look. (spec : TableSpec) → slice_get (specs_of self.now) place ≡ Some spec → LooksAt passes place spec.schema (record { session = session; node = node }) look result.0) }
        ensures sees { OnErr result.1 (SeesAt passes place result.0) }
    {
        let key = Key { session, node };
        let pass = passes.each.remove(place as usize);
        let (pass, told) = self.turn(place).look(rt, pass, &key);
        put_back(&mut passes.each, place as usize, pass);
        (passes, told)
    }
}
