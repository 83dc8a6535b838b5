//! A call of one message, by its method.

ghost use Rattle.std.specs.Prelude.{◌≡◌, ◌<◌, ◌^◌, ◌≤ℤ◌, length, IfOk, OnErr};
ghost use Rattle.table_model.specs.declared.limits.TheConstants.{LATEST_READING};
ghost use Rattle.open_tables.specs.Tables.{AreTheirs, specs_of};
ghost use Rattle.open_tables.specs.Plans.{Gets, Loses};
ghost use Rattle.conn_requests.specs.Ends.{end_answer};
ghost use Rattle.conn_requests.specs.declared.asks.Over.TheVariants as over;
ghost use Rattle.call_plans.specs.Plans.{call_plan};

use crate::committing::commit;
use crate::creating::create;
use crate::finalising::finalise;
use crate::flushing::flush;
use crate::getting::get;
use crate::reading::read;
use crate::sessions::create_session;
use crate::splitting::split;
use conn_requests::{Answer, Over};
use grpc_meta::Method;
use open_tables::{Passes, Tables};
use outside::Memory;
use std::alloc::Global;
use std::sync::Wait;

/// Answers a call with its one message by its plan. `now` is a reading of the clock, in microseconds since 1970-01-01.
///
/// An AppendRows call has no one message: status 12, UNIMPLEMENTED.
///
/// At want of memory the answer is lost: nothing was entered, or all but the answer was done.
pub fn call<R: Wait>(
    tables: &Tables,
    rt: &R,
    alloc: Global,
    passes: Passes,
    method: Method,
    message: &[u8],
    now: i64,
) -> (Passes, Result<Answer, Memory>)
    requires small { length message.now < 2 ^ 32 }
    requires theirs { AreTheirs tables.now passes }
    requires in_time { now ≤ℤ LATEST_READING }
    ensures theirs { AreTheirs tables.now result.0 }
    ensures gets { IfOk result.1 (λ answer. Gets passes (call_plan (specs_of tables.now) method message.now) now answer result.0) }
    ensures loses { OnErr result.1 (Loses passes (call_plan (specs_of tables.now) method message.now) now result.0) }
{
    match method {
        Method::CreateWriteStream => create(tables, rt, alloc, passes, message, now),
        Method::GetWriteStream => get(tables, rt, alloc, passes, message, now),
        Method::FinalizeWriteStream => finalise(tables, rt, alloc, passes, message, now),
        Method::FlushRows => flush(tables, rt, alloc, passes, message, now),
        Method::BatchCommitWriteStreams => commit(tables, rt, alloc, passes, message, now),
        Method::CreateReadSession => create_session(tables, rt, alloc, passes, message, now),
        Method::ReadRows => read(tables, rt, alloc, passes, message, now),
        Method::SplitReadStream => split(tables, rt, alloc, passes, message, now),
        Method::AppendRows => (passes, Over::UnknownMethod.answer(alloc)),
    }
}
