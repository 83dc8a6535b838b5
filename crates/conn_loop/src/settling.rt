//! Writing what is due.

ghost use Rattle.std.specs.Prelude.{◌≡◌, ◌≤◌, ℕ, List, [], length, false, OnOk};
ghost use Rattle.conn_record.specs.declared.limits.TheConstants.{WRITE_ROOM};
ghost use Rattle.h2_record.specs.Texts.{Token};
ghost use Rattle.conn_deferral.specs.Deferred.{Deals};
ghost use Rattle.conn_deferral.specs.Resting.{DealsAll, SaysAll};
ghost use Rattle.conn_calls.specs.Dealing.{dealing_of, IsDealt};
ghost use Rattle.conn_loop.specs.Settling.{Appends, FillsAll, SendsFilled, Settles};

use crate::sending::send;
use conn_calls::Dealing;
use conn_record::{LEAST_ROOM, WRITE_ROOM};
use h2_conn::Conn;
use links::Link;
use outside::Memory;
use rows_body::Hand;
use std::alloc::Global;
use std::sync::Wait;

/// What one filling of a buffer left.
#[derive(Clone, Copy, Debug, PartialEq, Eq)]
pub(crate) enum Settled {
    /// All that was due is written, but for what windows hold up.
    Quiet,
    /// The buffer was full: at least [`conn_record::MOST_BEHIND`] bytes were written, and more may be due.
    Behind,
    /// The link met a fault.
    LinkFault,
    /// Want of memory. Nothing was written.
    Memory,
}

// Appends the frames that are due, until none that is due fits the rest of `WRITE_ROOM` bytes. They count as written.
fn fill_frames(alloc: Global, conn: &mut Conn, out: &mut Vec<u8>) -> Result<(), Memory>
    requires short { length out.old.items ≤ WRITE_ROOM }
    ensures fills { OnOk result (Appends conn.old conn.new out.old.items out.new.items) }
{
    let before = out.len();
    conn.fill(alloc, out, (WRITE_ROOM - before) as u32)?;
    conn.wrote((out.len() - before) as u32);
    Ok(())
}

// Fills `out`, at most `WRITE_ROOM` bytes, with the frames that are due, and gives what is left of answers where the windows
// leave room, until nothing more is due and nothing may be given, or less than `LEAST_ROOM` is left.
fn fill_all<R: Wait>(
    rt: &R,
    alloc: Global,
    hand: &Hand,
    conn: &mut Dealing<'_>,
    out: &mut Vec<u8>,
) -> Result<(), Memory>
    requires empty { out.old.items ≡ [] }
    ensures fills { OnOk result (FillsAll IsDealt DealsAll (dealing_of conn.old) (dealing_of conn.new) out.new.items) }
{
    for _ in rt.forever() {
        fill_frames(alloc, &mut conn.conn, out)?;
        let room = WRITE_ROOM - out.len();
        if room < LEAST_ROOM {
            return Ok(());
        }
        match conn.ready() {
            Some(id) => conn.poll(rt, alloc, hand, id)?,
            None => return Ok(()),
        }
    }
    unreachable!()
}

// Sends a buffer that was filled.
fn send_filled<R: Wait, L: Link>(rt: &R, link: &mut L, out: &[u8]) -> Settled
    requires open { L.closed link.old ≡ false }
    requires short { length out.now ≤ WRITE_ROOM }
    ensures sends { SendsFilled result out.now (L.log link.old) (L.log link.new) (L.faults link.old) (L.faults link.new) }
    ensures left { L.left link.new ≡ L.left link.old }
    ensures ended { L.ended link.new ≡ L.ended link.old }
    ensures open { L.closed link.new ≡ false }
{
    match send(rt, link, out) {
        Ok(()) => {}
        Err(_) => return Settled::LinkFault,
    }
    if WRITE_ROOM - out.len() < LEAST_ROOM {
        return Settled::Behind;
    }
    Settled::Quiet
}

// Fills `out`, at most `WRITE_ROOM` bytes, with the frames that are due and the parts of answers that may be given, and sends
// it. What `out` held is forgotten, and its memory is used again.
pub(crate) fn settle<R: Wait, L: Link>(
    rt: &R,
    alloc: Global,
    link: &mut L,
    hand: &Hand,
    conn: &mut Dealing<'_>,
    out: &mut Vec<u8>,
) -> Settled
    requires open { L.closed link.old ≡ false }
    ensures settles { Settles IsDealt DealsAll result (dealing_of conn.old) (dealing_of conn.new) (L.log link.old) (L.log link.new) (L.faults link.old) (L.faults link.new) }
    ensures left { L.left link.new ≡ L.left link.old }
    ensures ended { L.ended link.new ≡ L.ended link.old }
    ensures open { L.closed link.new ≡ false }
{
    out.clear();
    match fill_all(rt, alloc, hand, conn, out) {
        Ok(()) => send_filled(rt, link, out),
        Err(Memory) => Settled::Memory,
    }
}

// The same with control frames alone, behind a broken rule.
pub(crate) fn settle_last<R: Wait, L: Link>(
    rt: &R,
    alloc: Global,
    link: &mut L,
    conn: &mut Conn,
    out: &mut Vec<u8>,
) -> Settled
    requires open { L.closed link.old ≡ false }
    ensures settles { (left : ℕ → List Token) → Settles Deals SaysAll result (record { conn = conn.old; left = left }) (record { conn = conn.new; left = left }) (L.log link.old) (L.log link.new) (L.faults link.old) (L.faults link.new) }
    ensures left { L.left link.new ≡ L.left link.old }
    ensures ended { L.ended link.new ≡ L.ended link.old }
    ensures open { L.closed link.new ≡ false }
{
    out.clear();
    match fill_frames(alloc, conn, out) {
        Ok(()) => send_filled(rt, link, out),
        Err(Memory) => Settled::Memory,
    }
}
