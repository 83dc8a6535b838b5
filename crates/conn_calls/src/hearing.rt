//! What a frame tells is heard: a request opens a call or is refused, and the bytes of a call's body are taken.

ghost use Rattle.std.specs.Prelude.{◌≡◌, ℕ, Bool, [], ◌∷◌, Some, Option, false};
ghost use Rattle.open_tables.specs.Tables.{AreTheirs, specs_of};
ghost use Rattle.conn_requests.specs.declared.asks.Ask.TheVariants as ask;
ghost use Rattle.conn_requests.specs.Decided.{has_answer};
ghost use Rattle.conn_service.specs.Going.{Kept};
ghost use Rattle.call_plans.specs.Plans.{plan};
ghost use Rattle.conn_calls.specs.Calls.{kept_in};
ghost use Rattle.conn_calls.specs.Dealing.{dealing_of, MarksOn};
ghost use Rattle.conn_calls.specs.Heard.{Heeds};
ghost use Rattle.conn_calls.specs.Answering.{Start, Answering, AsksAll, KeepsAll, KeepsOthers, Hearing, bodies, bodies_on, requests, refuses};

use crate::asked::Asked;
use crate::asking::{answer_all, answer_one};
use crate::calls::{Calls, GoingCall};
use crate::dealing::Dealing;
use crate::gated::Gated;
use crate::heard::Heard;
use crate::service::Service;
use append_calls::AppendCall;
use conn_requests::{Ask, Call, Over, over_of};
use h2_conn::Event;
use hpack_blocks::Field;
use links::{Clock, Gate};
use open_tables::Passes;
use std::sync::Wait;

/// A frame that asks something makes a request whole.
fn mark(conn: &mut Dealing<'_>, asks: &[Ask])
    ensures { MarksOn (dealing_of conn.old) (dealing_of conn.new) asks.now }
{
    if asks.is_empty() {
        return;
    }
    conn.request_whole();
}

/// Takes bytes of the body of a call, and answers what they ask.
fn ask_call<'t, R: Wait, C: Clock, G: Gate>(
    service: &Service<'t, R>,
    passes: Passes,
    conn: &mut Dealing<'t>,
    clock: &mut C,
    gated: &mut Gated<'_, G>,
    id: u32,
    call: &mut Call,
    append: &mut AppendCall,
    bytes: &[u8],
    ended: bool,
) -> (Passes, Asked)
    requires theirs { AreTheirs service.now.tables.now passes }
    ensures theirs { AreTheirs service.now.tables.now result.0 }
    ensures asks { (s : Start) → Answering (plan (specs_of service.now.tables.now)) s id passes (C.readings clock.old) (dealing_of conn.old) call.old.begun (bodies id bytes.now ended (record { body = call.old.body; named = append.old }))
        → AsksAll result.1 (plan (specs_of service.now.tables.now)) s id result.0 (C.readings clock.new) (dealing_of conn.new) call.new.begun append.new (Some call.new.body) }
{
    let Ok(asks) = call.hear(service.alloc, bytes, ended) else {
        return (passes, Asked::Memory);
    };
    mark(conn, &asks);
    answer_all(service, passes, conn, clock, gated, id, call, append, &asks)
}

/// Takes bytes of the body of a call, which was taken out and is put back where it goes on.
fn hear_call<'t, R: Wait, C: Clock, G: Gate>(
    service: &Service<'t, R>,
    passes: Passes,
    conn: &mut Dealing<'t>,
    calls: &mut Calls,
    clock: &mut C,
    gated: &mut Gated<'_, G>,
    id: u32,
    mut call: Call,
    mut append: AppendCall,
    bytes: &[u8],
    ended: bool,
) -> (Passes, Heard)
    requires theirs { AreTheirs service.now.tables.now passes }
    ensures theirs { AreTheirs service.now.tables.now result.0 }
    ensures heeds { (s : Start) → Answering (plan (specs_of service.now.tables.now)) s id passes (C.readings clock.old) (dealing_of conn.old) call.begun (bodies id bytes.now ended (record { body = call.body; named = append }))
        → KeepsOthers (kept_in calls.old) s id
        → Heeds result.1 (plan (specs_of service.now.tables.now)) s.frame s.played s.passes result.0 (dealing_of conn.new) (kept_in calls.new) s.readings (C.readings clock.new) }
{
    let (passes, asked) = ask_call(
        service,
        passes,
        conn,
        clock,
        gated,
        id,
        &mut call,
        &mut append,
        bytes,
        ended,
    );
    match asked {
        Asked::Goes => match calls.put(id, GoingCall { call, append }) {
            Ok(()) => (passes, Heard::Goes),
            Err(_) => (passes, Heard::Memory),
        },
        Asked::Over => (passes, Heard::Goes),
        Asked::Memory => (passes, Heard::Memory),
    }
}

/// Answers a request that opens no call.
fn refuse<'t, R: Wait, C: Clock, G: Gate>(
    service: &Service<'t, R>,
    passes: Passes,
    conn: &mut Dealing<'t>,
    clock: &mut C,
    gated: &mut Gated<'_, G>,
    id: u32,
    over: Over,
) -> (Passes, Heard)
    requires theirs { AreTheirs service.now.tables.now passes }
    ensures theirs { AreTheirs service.now.tables.now result.0 }
    ensures heeds { (s : Start) → (kept : ℕ → Option Kept) → Answering (plan (specs_of service.now.tables.now)) s id passes (C.readings clock.old) (dealing_of conn.old) false (refuses id (ask.Ends over ∷ []))
        → KeepsOthers kept s id
        → Heeds result.1 (plan (specs_of service.now.tables.now)) s.frame s.played s.passes result.0 (dealing_of conn.new) kept s.readings (C.readings clock.new) }
{
    conn.request_whole();
    let mut append = AppendCall::new(service.alloc);
    let ask = Ask::Ends(over);
    let (passes, asked) = answer_one(
        service,
        passes,
        conn,
        clock,
        gated,
        id,
        false,
        &mut append,
        &ask,
    );
    match asked {
        Asked::Goes => (passes, Heard::Goes),
        Asked::Over => (passes, Heard::Goes),
        Asked::Memory => (passes, Heard::Memory),
    }
}

/// A request begins, which opens a call or is refused.
fn open_call<'t, R: Wait, C: Clock, G: Gate>(
    service: &Service<'t, R>,
    passes: Passes,
    conn: &mut Dealing<'t>,
    calls: &mut Calls,
    clock: &mut C,
    gated: &mut Gated<'_, G>,
    id: u32,
    fields: &[Field],
    ended: bool,
) -> (Passes, Heard)
    requires theirs { AreTheirs service.now.tables.now passes }
    ensures theirs { AreTheirs service.now.tables.now result.0 }
    ensures heeds { (s : Start) → Answering (plan (specs_of service.now.tables.now)) s id passes (C.readings clock.old) (dealing_of conn.old) false (requests id fields.now ended)
        → KeepsOthers (kept_in calls.old) s id
        → Heeds result.1 (plan (specs_of service.now.tables.now)) s.frame s.played s.passes result.0 (dealing_of conn.new) (kept_in calls.new) s.readings (C.readings clock.new) }
{
    match Call::open(service.alloc, fields) {
        Ok(call) => {
            let append = AppendCall::new(service.alloc);
            hear_call(
                service,
                passes,
                conn,
                calls,
                clock,
                gated,
                id,
                call,
                append,
                &[],
                ended,
            )
        }
        Err(fault) => match over_of(fault) {
            Some(over) => refuse(service, passes, conn, clock, gated, id, over),
            None => (passes, Heard::Goes),
        },
    }
}

/// Bytes of a body come on a stream. Where no call goes on there, they ask nothing.
fn hear_body<'t, R: Wait, C: Clock, G: Gate>(
    service: &Service<'t, R>,
    passes: Passes,
    conn: &mut Dealing<'t>,
    calls: &mut Calls,
    clock: &mut C,
    gated: &mut Gated<'_, G>,
    id: u32,
    bytes: &[u8],
    ended: bool,
) -> (Passes, Heard)
    requires theirs { AreTheirs service.now.tables.now passes }
    ensures theirs { AreTheirs service.now.tables.now result.0 }
    ensures heeds { (s : Start) → Answering (plan (specs_of service.now.tables.now)) s id passes (C.readings clock.old) (dealing_of conn.old) (has_answer s.played.used id) (bodies_on id bytes.now ended)
        → KeepsAll (kept_in calls.old) s
        → Heeds result.1 (plan (specs_of service.now.tables.now)) s.frame s.played s.passes result.0 (dealing_of conn.new) (kept_in calls.new) s.readings (C.readings clock.new) }
{
    match calls.take(id) {
        Some(GoingCall { call, append }) => hear_call(
            service, passes, conn, calls, clock, gated, id, call, append, bytes, ended,
        ),
        None => (passes, Heard::Goes),
    }
}

/// Hears what a frame tells, and answers all that it decides.
pub(crate) fn hear<'t, R: Wait, C: Clock, G: Gate>(
    service: &Service<'t, R>,
    passes: Passes,
    conn: &mut Dealing<'t>,
    calls: &mut Calls,
    clock: &mut C,
    gated: &mut Gated<'_, G>,
    event: Event,
) -> (Passes, Heard)
    requires theirs { AreTheirs service.now.tables.now passes }
    ensures theirs { AreTheirs service.now.tables.now result.0 }
    ensures heeds { (s : Start) → Hearing (plan (specs_of service.now.tables.now)) s passes (C.readings clock.old) (dealing_of conn.old) (kept_in calls.old) event
        → Heeds result.1 (plan (specs_of service.now.tables.now)) s.frame s.played s.passes result.0 (dealing_of conn.new) (kept_in calls.new) s.readings (C.readings clock.new) }
{
    match event {
        Event::Opened {
            stream,
            fields,
            ended,
        } => {
            calls.take(stream);
            open_call(
                service,
                passes,
                conn,
                calls,
                clock,
                gated,
                stream,
                fields.fields(),
                ended,
            )
        }
        Event::TooLarge { stream } => {
            calls.take(stream);
            refuse(
                service,
                passes,
                conn,
                clock,
                gated,
                stream,
                Over::ListTooLarge,
            )
        }
        Event::Body {
            stream,
            bytes,
            ended,
        } => hear_body(
            service,
            passes,
            conn,
            calls,
            clock,
            gated,
            stream,
            bytes.bytes(),
            ended,
        ),
        Event::Ended { stream } => hear_body(
            service,
            passes,
            conn,
            calls,
            clock,
            gated,
            stream,
            &[],
            true,
        ),
        Event::Reset { stream, code: _ } => {
            calls.take(stream);
            (passes, Heard::Goes)
        }
        Event::Fault { code: _, rule: _ } => (passes, Heard::Goes),
    }
}
