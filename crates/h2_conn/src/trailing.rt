//! Steps of the streams at HEADERS.

ghost use Rattle.std.specs.Prelude.{◌≡◌, ◌%◌, ◌==◌, ◌<◌, ◌^◌, ℕ, IfOk, IfSome, IsSome, true, false, pos, if◌then◌else◌};
ghost use Rattle.std.specs.List.{AllByRecursion};
ghost use Rattle.h2_streams.specs.Book.{find, is_idle};
ghost use Rattle.h2_conn.specs.Trailing.{BeginsTo, EndsTo};
ghost use Rattle.h2_conn.specs.KeptCredit.{kept_on, KeptOnly};
ghost use Rattle.h2_conn.specs.Within.{IsNearInitial};

use crate::kept_credit::KeptCredit;
use h2_streams::{BeginRefusal, Streams};
use outside::Memory;
use std::alloc::Global;

// The window that a stream begins with.
fn first_send(initial: u32) -> i64
    ensures { result ≡ pos initial }
{
    i64::from(initial)
}

// HEADERS on a new id: whether the stream is opened.
pub(crate) fn begin(
    alloc: Global,
    streams: &mut Streams,
    id: u32,
    initial: u32,
    ended: bool,
) -> Result<bool, Memory>
    requires odd { (id % 2 == 0) ≡ false }
    requires idle { is_idle streams.old id ≡ true }
    requires small { initial < 2 ^ 31 }
    requires below { id < 2 ^ 31 }
    ensures begins { IfOk result (λ opens. BeginsTo streams.old id initial ended opens streams.new) }
    ensures near { AllByRecursion (IsNearInitial initial) streams.old.live → AllByRecursion (IsNearInitial initial) streams.new.live }
    ensures last { streams.old.last < 2 ^ 31 → streams.new.last < 2 ^ 31 }
{
    match streams.begin(alloc, id, first_send(initial), ended) {
        Ok(()) => Ok(true),
        Err(BeginRefusal::TooMany { live: _ }) => Ok(false),
        Err(BeginRefusal::Memory) => Err(Memory),
        Err(BeginRefusal::NotOdd) => unreachable!(),
        Err(BeginRefusal::NotRising { last: _ }) => unreachable!(),
    }
}

// HEADERS on a live stream that the client hadn't ended.
pub(crate) fn trail(streams: &mut Streams, kept: &mut KeptCredit, id: u32, ended: bool)
    requires { IsSome (find streams.old id) }
    ensures ends { IfSome (find streams.old id) (EndsTo streams.old id ended streams.new) }
    ensures near { (initial : ℕ) → AllByRecursion (IsNearInitial initial) streams.old.live → AllByRecursion (IsNearInitial initial) streams.new.live }
    ensures last { streams.new.last ≡ streams.old.last }
    ensures kept { KeptOnly kept.old kept.new id (if ended then 0 else kept_on kept.old id) }
{
    if ended {
        streams.end(id);
        kept.remove(id);
    }
}
