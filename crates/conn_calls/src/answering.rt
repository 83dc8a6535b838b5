//! What is asked gets its answer.

ghost use Rattle.std.specs.Prelude.{◌≡◌, ◌<◌, ◌^◌, ◌≤ℤ◌, false, length, IfOk, OnErr};
ghost use Rattle.table_model.specs.declared.limits.TheConstants.{LATEST_READING};
ghost use Rattle.open_tables.specs.Tables.{AreTheirs, specs_of};
ghost use Rattle.open_tables.specs.Plans.{Gets, Loses};
ghost use Rattle.conn_requests.specs.declared.asks.Ask.{Ask};
ghost use Rattle.conn_requests.specs.declared.asks.Ask.TheVariants as ask;
ghost use Rattle.conn_requests.specs.Names.{named_after, named_with};
ghost use Rattle.call_plans.specs.Appending.{append_plan};
ghost use Rattle.call_plans.specs.Laws.{ends};
ghost use Rattle.call_plans.specs.Plans.{plan, call_plan};
ghost use Rattle.call_read.specs.Items.{told};
ghost use Rattle.conn_calls.specs.Answering.{AnswersBy, BodiesRead, told_by};

use crate::service::Service;
use append_calls::AppendCall;
use call_read::{RowsAnswer, call, rows};
use conn_requests::{Answer, Ask, lost};
use grpc_meta::Method;
use open_tables::Passes;
use outside::Memory;
use std::sync::Wait;

/// The longest message that is answered, in bytes. None is longer than `grpc_frame::MESSAGE_LIMIT`.
const LONGEST_MESSAGE: usize = 4_294_967_295;

// An answer that is given at once.
fn at_once<'t>(answer: Result<Answer, Memory>) -> Result<RowsAnswer<'t>, Memory>
    ensures told { told_by result ≡ answer }
    ensures bodies { (ask : Ask) → BodiesRead ask result }
{
    Ok(RowsAnswer::End(answer?))
}

// A message of an AppendRows call.
#[tactic(auto, using(crate::proofs::AskingLemmas::untouched))]
fn answer_append<'t, R: Wait>(
    service: &Service<'t, R>,
    passes: Passes,
    append: &mut AppendCall,
    message: &[u8],
    now: i64,
) -> (Passes, Result<RowsAnswer<'t>, Memory>)
    requires theirs { AreTheirs service.now.tables.now passes }
    requires in_time { now ≤ℤ LATEST_READING }
    ensures theirs { AreTheirs service.now.tables.now result.0 }
    ensures named { IfOk result.1 (λ rows. append.new ≡ named_with append.old message.now) }
    ensures gets { IfOk result.1 (λ rows. Gets passes (append_plan (specs_of service.now.tables.now) (named_with append.old message.now) message.now) now (told rows) result.0) }
    ensures bodies { (ask : Ask) → BodiesRead ask result.1 }
    ensures loses { OnErr result.1 (Loses passes (append_plan (specs_of service.now.tables.now) (named_with append.old message.now) message.now) now result.0) }
{
    if LONGEST_MESSAGE < message.len() {
        return (passes, Err(Memory));
    }
    let (passes, answer) = append.message(
        service.tables,
        service.rt,
        service.alloc,
        passes,
        message,
        now,
    );
    (passes, at_once(answer))
}

// A call of one message. Of ReadRows the answer may be a body.
#[tactic(auto, using(crate::proofs::AskingLemmas::untouched))]
fn answer_call<'t, R: Wait>(
    service: &Service<'t, R>,
    passes: Passes,
    method: Method,
    message: &[u8],
    now: i64,
) -> (Passes, Result<RowsAnswer<'t>, Memory>)
    requires theirs { AreTheirs service.now.tables.now passes }
    requires in_time { now ≤ℤ LATEST_READING }
    ensures theirs { AreTheirs service.now.tables.now result.0 }
    ensures gets { IfOk result.1 (λ rows. Gets passes (call_plan (specs_of service.now.tables.now) method message.now) now (told rows) result.0) }
    ensures bodies { BodiesRead (ask.Call method message.now) result.1 }
    ensures loses { OnErr result.1 (Loses passes (call_plan (specs_of service.now.tables.now) method message.now) now result.0) }
{
    let (tables, rt, alloc) = (service.tables, service.rt, service.alloc);
    if LONGEST_MESSAGE < message.len() {
        return (passes, Err(Memory));
    }
    if let Method::ReadRows = method {
        return rows(tables, rt, alloc, passes, message, now);
    }
    let (passes, answer) = call(tables, rt, alloc, passes, method, message, now);
    (passes, at_once(answer))
}

#[tactic(auto, unfolding(call_plans::specs::Plans::plan))]
fn answer_planned<'t, R: Wait>(
    service: &Service<'t, R>,
    passes: Passes,
    append: &mut AppendCall,
    ask: &Ask,
    now: i64,
) -> (Passes, Result<RowsAnswer<'t>, Memory>)
    requires theirs { AreTheirs service.now.tables.now passes }
    requires in_time { now ≤ℤ LATEST_READING }
    ensures theirs { AreTheirs service.now.tables.now result.0 }
    ensures named { IfOk result.1 (λ answer. append.new ≡ named_after append.old ask.now) }
    ensures gets { IfOk result.1 (λ answer. Gets passes (plan (specs_of service.now.tables.now) (named_after append.old ask.now) ask.now) now (told answer) result.0) }
    ensures bodies { BodiesRead ask.now result.1 }
    ensures loses { OnErr result.1 (Loses passes (plan (specs_of service.now.tables.now) (named_after append.old ask.now) ask.now) now result.0) }
{
    match ask {
        Ask::Append(message) => answer_append(service, passes, append, message.bytes(), now),
        Ask::Call(method, message) => {
            answer_call(service, passes, *method, message.bytes(), now)
        }
        Ask::Ends(over) => (passes, at_once(over.answer(service.alloc))),
    }
}

/// Answers what is asked by its plan, or by the answer that stands for want of memory. `append` remembers what the messages
/// of an AppendRows call have named. `now` is a reading of the clock, in microseconds since 1970-01-01.
pub(crate) fn answer_ask<'t, R: Wait>(
    service: &Service<'t, R>,
    passes: Passes,
    append: &mut AppendCall,
    ask: &Ask,
    now: i64,
) -> (Passes, Result<RowsAnswer<'t>, Memory>)
    requires theirs { AreTheirs service.now.tables.now passes }
    requires in_time { now ≤ℤ LATEST_READING }
    ensures theirs { AreTheirs service.now.tables.now result.0 }
    ensures named { IfOk result.1 (λ answer. ends (told answer) ≡ false → append.new ≡ named_after append.old ask.now) }
    ensures bodies { BodiesRead ask.now result.1 }
    ensures answers { IfOk result.1 (λ answer. AnswersBy (plan (specs_of service.now.tables.now) (named_after append.old ask.now) ask.now) passes now (told answer) result.0) }
    ensures loses { OnErr result.1 (Loses passes (plan (specs_of service.now.tables.now) (named_after append.old ask.now) ask.now) now result.0) }
{
    let (passes, answer) = answer_planned(service, passes, append, ask, now);
    match answer {
        Ok(answer) => (passes, Ok(answer)),
        Err(Memory) => (passes, at_once(lost(service.alloc))),
    }
}
