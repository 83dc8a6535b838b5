//! The steps of a turn, each a loop over one step at the table or two steps in a row.

ghost use Rattle.std.specs.Prelude.{◌≡◌, ℕ, [], ◌∷◌, None, Some};
ghost use Rattle.turn_table.specs.declared.seats.Stage.TheVariants.{Idle, Waits, Holds};
ghost use Rattle.turn_table.specs.Rule.{Found, IsBoard, IsLive, IsNew, Publishing, meaning, waiting, holding, published, settled, numbered};

use crate::Machine;
use crate::plays::{Ask, Draw, DrawNumber, PassOn, Publish, Told};
use crate::seats::{Place, Top};
use std::marker::Brand;
use std::sync::Wait;
use std::thread::yield_now;

// Draws a ticket. At the last ticket it doesn't return.
fn draw<M: Machine, R: Wait>(rt: &R, top: &Top<M>, seat: &mut Place<M>) -> u64
    requires table { (seat.old.table_id ≡ top.now.table_id) × IsBoard top.now.table_id }
    requires idle { seat.old.me.0.stage ≡ Idle }
    ensures table { seat.new.table_id ≡ seat.old.table_id }
    ensures drawn { seat.new.me ≡ (waiting result seat.old.me.0, seat.old.me.1) }
{
    for _ in rt.forever() {
        let found = top.peek(0);
        if found < u64::MAX {
            let was = top.compare_exchange::<Draw>(seat, 0, found, found + 1);
            if was == found {
                return found;
            }
        }
    }
    unreachable!()
}

// Asks who is served until it is this ticket, and takes the machine. It yields the processor while it waits.
fn take<M: Machine, R: Wait>(rt: &R, top: &Top<M>, seat: &mut Place<M>, ticket: u64) -> M
    requires table { (seat.old.table_id ≡ top.now.table_id) × IsBoard top.now.table_id }
    requires waits { seat.old.me.0.stage ≡ Waits ticket }
    requires bare { seat.old.me.1 ≡ [] }
    requires live { IsLive seat.old.me.0 }
    ensures table { seat.new.table_id ≡ seat.old.table_id }
    ensures held { seat.new.me ≡ (holding (M.history result) seat.old.me.0, (0, None) ∷ []) }
    ensures found { Found (meaning M.history M.fixed M.caller_of M.takes M.allows) seat.old.me.0 result }
{
    for _ in rt.forever() {
        let served = top.load::<Ask>(seat, 1);
        if served == ticket {
            let home = top.exchange(seat, 0, None);
            return home.unwrap();
        }
        yield_now();
    }
    unreachable!()
}

/// Waits for the seat's turn, and takes the machine.
pub(crate) fn enter<M: Machine, R: Wait>(rt: &R, top: &Top<M>, seat: &mut Place<M>) -> M
    requires table { (seat.old.table_id ≡ top.now.table_id) × IsBoard top.now.table_id }
    requires idle { seat.old.me.0.stage ≡ Idle }
    requires bare { seat.old.me.1 ≡ [] }
    requires live { IsLive seat.old.me.0 }
    ensures table { seat.new.table_id ≡ seat.old.table_id }
    ensures held { (ticket : ℕ) × (seat.new.me ≡ (record seat.old.me.0 { stage = Holds ticket (M.history result) }, (0, None) ∷ [])) }
    ensures found { Found (meaning M.history M.fixed M.caller_of M.takes M.allows) seat.old.me.0 result }
{
    let ticket = draw(rt, top, seat);
    take(rt, top, seat, ticket)
}

/// Publishes the machine's history, which is that of the table, or that with one entry of the seat's where `added` is 1.
pub(crate) fn publish<M: Machine, N: Told<M::Entry>>(
    top: &Top<M>,
    seat: &mut Place<M>,
    machine: &M,
    added: u64,
)
    requires table { (seat.old.table_id ≡ top.now.table_id) × IsBoard top.now.table_id }
    requires told { Publishing (meaning M.history M.fixed M.caller_of M.takes M.allows) seat.old.me.0 N.told added }
    ensures table { seat.new.table_id ≡ seat.old.table_id }
    ensures published { seat.new.me ≡ (published N.told seat.old.me.0, seat.old.me.1) }
{
    let _ = machine;
    top.fetch_add::<Publish<N>>(seat, 3, added);
}

/// Publishes the machine's history, puts the machine back and passes the turn on.
pub(crate) fn leave<M: Machine>(top: &Top<M>, seat: &mut Place<M>, machine: M, added: u64)
    requires table { (seat.old.table_id ≡ top.now.table_id) × IsBoard top.now.table_id }
    requires told { Publishing (meaning M.history M.fixed M.caller_of M.takes M.allows) seat.old.me.0 (M.history machine) added }
    requires away { seat.old.me.1 ≡ (0, None) ∷ [] }
    requires live { seat.old.me.0.fixed ≡ Some (M.fixed machine) }
    ensures table { seat.new.table_id ≡ seat.old.table_id }
    ensures settled { seat.new.me ≡ (settled (M.history machine) seat.old.me.0, []) }
{
    publish::<M, Brand>(top, seat, &machine, added);
    let None = top.exchange(seat, 0, Some(machine)) else {
        unreachable!()
    };
    top.fetch_add::<PassOn>(seat, 1, 1);
}

/// Draws a number. At the last of 2^32 it doesn't return.
pub(crate) fn draw_number<M: Machine, R: Wait>(rt: &R, top: &Top<M>, seat: &mut Place<M>) -> u32
    requires table { (seat.old.table_id ≡ top.now.table_id) × IsBoard top.now.table_id }
    requires idle { seat.old.me.0.stage ≡ Idle }
    requires live { IsLive seat.old.me.0 }
    ensures table { seat.new.table_id ≡ seat.old.table_id }
    ensures drawn { seat.new.me ≡ (numbered result seat.old.me.0, seat.old.me.1) }
    ensures new { IsNew (meaning M.history M.fixed M.caller_of M.takes M.allows) seat.old.me.0 result }
{
    for _ in rt.forever() {
        let found = top.peek(2);
        if found < u32::MAX as u64 {
            let was = top.compare_exchange::<DrawNumber>(seat, 2, found, found + 1);
            if was == found {
                return found as u32;
            }
        }
    }
    unreachable!()
}
