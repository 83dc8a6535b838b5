//! What a call asks is answered, one thing after another, and each answer is given to the connection.

ghost use Rattle.std.specs.Prelude.{◌≡◌, true, Option, List, ◌∷◌, [], Ok, OnOk};
ghost use Rattle.open_tables.specs.Tables.{AreTheirs, specs_of};
ghost use Rattle.conn_requests.specs.declared.asks.Ask.{Ask};
ghost use Rattle.conn_requests.specs.Given.{parts_of};
ghost use Rattle.call_read.specs.Items.{told_items};
ghost use Rattle.conn_service.specs.Quiet.{reads_rows};
ghost use Rattle.conn_calls.specs.Dealing.{dealing_of, Decides};
ghost use Rattle.conn_requests.specs.Body.{Body};
ghost use Rattle.conn_requests.specs.Decided.{item_for};
ghost use Rattle.conn_requests.specs.Names.{named_after};
ghost use Rattle.call_plans.specs.Laws.{ends};
ghost use Rattle.call_plans.specs.Plans.{plan};
ghost use Rattle.conn_calls.specs.declared.asked.Asked.TheVariants as asked;
ghost use Rattle.conn_calls.specs.Answering.{BodiesRead, told_by, GivesOne, AsksOne, AsksAll, Start, Answering, rest};

use crate::answering::answer_ask;
use crate::asked::Asked;
use crate::dealing::Dealing;
use crate::gated::Gated;
use crate::giving::{give, give_opening};
use crate::service::Service;
use append_calls::AppendCall;
use call_read::RowsAnswer;
use conn_requests::{Answer, Ask, Call};
use links::{Clock, Gate};
use open_tables::Passes;
use outside::Memory;
use rows_body::RowsBody;
use std::alloc::Global;
use std::sync::Wait;

// Gives an answer to the connection, where nothing is left of an earlier one on its stream. Nothing ever is.
fn give_whole(
    alloc: Global,
    conn: &mut Dealing<'_>,
    id: u32,
    begun: bool,
    answer: &Answer,
) -> Result<(), Memory>
    ensures { (ask : Ask) → OnOk result (Decides (dealing_of conn.old) (dealing_of conn.new) id ask (parts_of begun answer.now)) }
{
    if conn.has_body(id) {
        return Err(Memory);
    }
    give(alloc, &mut conn.conn, id, begun, answer)
}

// Gives the HEADERS of an answer to ReadRows, and leaves its other parts to be given.
fn give_body<'t>(
    alloc: Global,
    conn: &mut Dealing<'t>,
    id: u32,
    begun: bool,
    body: RowsBody<'t>,
) -> Result<(), Memory>
    ensures { (ask : Ask) → reads_rows ask ≡ true → OnOk result (Decides (dealing_of conn.old) (dealing_of conn.new) id ask (parts_of begun (told_items body.entry.left))) }
{
    if conn.has_body(id) {
        return Err(Memory);
    }
    give_opening(alloc, &mut conn.conn, id, begun)?;
    if !conn.conn.may_go_on(id) || !conn.conn.has_ended(id) {
        return Err(Memory);
    }
    conn.leave(id, body)
}

// Whether an answer ends its call.
fn is_end(answer: &Answer) -> bool
    ensures { result ≡ ends answer.now }
{
    match answer {
        Answer::Goes(_) => false,
        Answer::Ends(..) | Answer::Http(_) => true,
    }
}

fn give_answer(
    alloc: Global,
    conn: &mut Dealing<'_>,
    id: u32,
    begun: bool,
    answer: &Answer,
) -> Asked
    ensures { (ask : Ask) → GivesOne result (Ok answer.now) id ask begun (dealing_of conn.old) (dealing_of conn.new) }
{
    let Ok(()) = give_whole(alloc, conn, id, begun, answer) else {
        return Asked::Memory;
    };
    if is_end(answer) {
        return Asked::Over;
    }
    Asked::Goes
}

fn give_one<'t>(
    alloc: Global,
    conn: &mut Dealing<'t>,
    id: u32,
    begun: bool,
    rows: Result<RowsAnswer<'t>, Memory>,
) -> Asked
    ensures { (ask : Ask) → BodiesRead ask rows.entry → GivesOne result (told_by rows.entry) id ask begun (dealing_of conn.old) (dealing_of conn.new) }
{
    match rows {
        Ok(RowsAnswer::End(answer)) => give_answer(alloc, conn, id, begun, &answer),
        Ok(RowsAnswer::Body(body)) => match give_body(alloc, conn, id, begun, body) {
            Ok(()) => Asked::Over,
            Err(Memory) => Asked::Memory,
        },
        Err(Memory) => Asked::Memory,
    }
}

/// Answers one thing that is asked on a stream, by one reading of the clock, and gives the answer to the connection; `begun`
/// says whether one was given on the stream before. It is reached by the gate before it is answered and behind its answer.
pub(crate) fn answer_one<'t, R: Wait, C: Clock, G: Gate>(
    service: &Service<'t, R>,
    passes: Passes,
    conn: &mut Dealing<'t>,
    clock: &mut C,
    gated: &mut Gated<'_, G>,
    id: u32,
    begun: bool,
    append: &mut AppendCall,
    ask: &Ask,
) -> (Passes, Asked)
    requires theirs { AreTheirs service.now.tables.now passes }
    ensures theirs { AreTheirs service.now.tables.now result.0 }
    ensures asks { AsksOne result.1 (plan (specs_of service.now.tables.now)) (item_for id append.old ask.now) begun passes result.0 (C.readings clock.old) (C.readings clock.new) (dealing_of conn.old) (dealing_of conn.new) }
    ensures named { result.1 ≡ asked.Goes → append.new ≡ named_after append.old ask.now }
{
    gated.enter();
    let now = clock.now();
    let (passes, answer) = answer_ask(service, passes, append, ask, now);
    let given = give_one(service.alloc, conn, id, begun, answer);
    gated.leave();
    (passes, given)
}

/// Answers all that a call asks at once, in its order, until something ends the call.
pub(crate) fn answer_all<'t, R: Wait, C: Clock, G: Gate>(
    service: &Service<'t, R>,
    mut passes: Passes,
    conn: &mut Dealing<'t>,
    clock: &mut C,
    gated: &mut Gated<'_, G>,
    id: u32,
    call: &mut Call,
    append: &mut AppendCall,
    asks: &[Ask],
) -> (Passes, Asked)
    requires theirs { AreTheirs service.now.tables.now passes }
    ensures theirs { AreTheirs service.now.tables.now result.0 }
    ensures asks { (s : Start) (body : Option Body) → Answering (plan (specs_of service.now.tables.now)) s id passes (C.readings clock.old) (dealing_of conn.old) call.old.begun (rest id append.old body asks.now)
        → AsksAll result.1 (plan (specs_of service.now.tables.now)) s id result.0 (C.readings clock.new) (dealing_of conn.new) call.new.begun append.new body }
    ensures body { call.new.body ≡ call.old.body }
{
    for ask in asks {
        let begun = call.has_begun();
        let (after, asked) = answer_one(
            service, passes, conn, clock, gated, id, begun, append, ask,
        );
        passes = after;
        match asked {
            Asked::Goes => call.begin(),
            Asked::Over => return (passes, Asked::Over),
            Asked::Memory => return (passes, Asked::Memory),
        }
    }
    (passes, Asked::Goes)
}
