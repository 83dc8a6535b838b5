//! A turn table and its passes.

ghost use Rattle.std.specs.Prelude.{◌≡◌, ◌<◌, ◌≤ℤ◌, [], IfOk, OnErr};
ghost use Rattle.turn_table.specs.declared.machine.TheConstants.{LATEST_READING};
ghost use Rattle.turn_table.specs.Turn.{IsLegal};
ghost use Rattle.turn_table.specs.View.{IsOf, Reaches, ActsBy, LooksBy, Splits, Joins, first_pass};

use crate::Machine;
use crate::plays::{Cut, LearnBoth, LearnFirst, Merge};
use crate::seats::{Board, Place};
use crate::steps::{draw_number, enter, leave, publish};
use atomic_table::Table;
use outside::Memory;
use std::alloc::Global;
use std::marker::{Brand, Model};
use std::snapshot::Snapshot;
use std::sync::Wait;

/// A pass to a turn table, with which one caller at a time takes turns.
///
/// Contracts see its table, its number, which the entries of its commands carry, a bound above that, whether it is the
/// only pass, the fixed part of the machine, and the history that it has seen, which is legal.
#[derive(Drop)]
pub struct Pass<M: Machine> {
    number: u32,
    seat: Place<M>,
}

impl<M: Machine> Model for Pass<M> {
    ghost use Rattle.turn_table.specs.View.{View};
    ghost use Rattle.turn_table.specs.Rule.{Rests, meaning, shown};

    ghost Value = { View M.Entry M.Fixed };

    ghost view = { λ p. shown M.anything p.number p.seat };

    ghost invariant = { λ p. Rests (meaning M.history M.fixed M.caller_of M.takes M.allows) M.anything p.number p.seat };
}

impl<M: Machine> Pass<M> {
    /// A law, the contract of a function that does nothing: what a pass has seen is legal.
    pub fn seen_is_legal(&self)
        ensures { IsLegal (M.takes self.now.fixed) (M.allows self.now.fixed) self.now.seen }
    {
        let _number = self.number;
    }

    /// A law, the contract of a function that does nothing: the number of a pass is below its bound.
    pub fn number_is_below(&self)
        ensures { self.now.number < self.now.bound }
    {
        let _number = self.number;
    }
}

/// A turn table: all who have a pass to it take turns at one machine. Threads may share it. Contracts see the table and
/// the machine's fixed part.
#[derive(Drop)]
pub struct Turn<M: Machine> {
    table: Board<M>,
}

impl<M: Machine> Model for Turn<M> {
    ghost use Rattle.turn_table.specs.View.{Home};
    ghost use Rattle.turn_table.specs.Rule.{IsBoard};

    ghost Value = { Home M.Fixed };

    ghost view = { λ t. record { table = t.table.shared.table_id; fixed = M.fixed t.table.shared.key.value } };

    ghost invariant = { λ t. IsBoard t.table.shared.table_id };
}

impl<M: Machine> Turn<M> {
    /// A turn table for a machine whose history is empty, and the first pass to it, which is alone.
    pub fn new(alloc: Global, machine: M) -> Result<(Turn<M>, Pass<M>), Memory>
        requires { M.history machine ≡ [] }
        ensures fixed { IfOk result (λ both. both.0.fixed ≡ M.fixed machine) }
        ensures first { IfOk result (λ both. both.1 ≡ first_pass both.0) }
        ensures theirs { IfOk result (λ both. IsOf both.0 both.1) }
    {
        let start = Snapshot::of(&machine);
        let mut slots = Vec::with_capacity(alloc, 1)?;
        slots.push(Some(machine))?;
        let Ok((table, seat)) = Table::new(alloc, &[0, 0, 1, 0], slots, &start) else {
            return Err(Memory);
        };
        let turn = Turn { table };
        let pass = Pass { number: 0, seat };
        Ok((turn, pass))
    }

    /// Takes a turn, in which the machine answers a command. `now` is a reading of the clock, in microseconds since
    /// 1970-01-01. It waits for its turn.
    ///
    /// The reply is one that is allowed at a history that begins with all that the pass had seen, and the pass then has
    /// seen that history with the reply's entry, if there is one. At want of memory it has seen such a history too, and
    /// no entry was added. Where the pass is alone, that history is exactly what it had seen.
    pub fn act<R: Wait>(
        &self,
        rt: &R,
        alloc: Global,
        pass: Pass<M>,
        command: M::Command,
        now: i64,
    ) -> (Pass<M>, Result<M::Reply, Memory>)
        requires theirs { IsOf self.now pass }
        requires taken { M.takes pass.fixed command }
        requires in_time { now ≤ℤ LATEST_READING }
        ensures acts { ActsBy M.caller_of M.allows pass command now result.1 result.0 }
        ensures theirs { IsOf self.now result.0 }
    {
        let Pass { number, mut seat } = pass;
        let top = &self.table.shared;
        let mut machine = enter(rt, top, &mut seat);
        let before = machine.entries();
        let told = machine.step(alloc, number, command, now);
        let added = machine.entries() - before;
        leave(top, &mut seat, machine, added);
        let pass = Pass { number, seat };
        (pass, told)
    }

    /// Takes a turn, in which the machine tells of its history what the key asks for. No entry is added. It waits for its
    /// turn.
    ///
    /// The look is one that is allowed at a history that begins with all that the pass had seen, and which the pass then
    /// has seen. At want of memory it has seen such a history too. Where the pass is alone, that history is exactly what
    /// it had seen, and it stays alone.
    pub fn look<R: Wait>(
        &self,
        rt: &R,
        pass: Pass<M>,
        key: &M::Key,
    ) -> (Pass<M>, Result<M::Look, Memory>)
        requires theirs { IsOf self.now pass }
        ensures looks { LooksBy M.caller_of M.looks pass key.now result.1 result.0 }
        ensures theirs { IsOf self.now result.0 }
    {
        let Pass { number, mut seat } = pass;
        let top = &self.table.shared;
        let machine = enter(rt, top, &mut seat);
        let told = machine.look(key);
        leave(top, &mut seat, machine, 0);
        let pass = Pass { number, seat };
        (pass, told)
    }

    /// Makes a second pass. It waits for no turn; at the last of 2^32 numbers it doesn't return.
    ///
    /// The new pass has a number that no entry carries and that is at least the bound of the old one, and has seen what
    /// the old one has. Neither is alone. No memory is asked for, so the result is `Ok`.
    pub fn split_pass<R: Wait>(
        &self,
        rt: &R,
        _alloc: Global,
        pass: Pass<M>,
    ) -> (Pass<M>, Result<Pass<M>, Memory>)
        requires { IsOf self.now pass }
        ensures splits { IfOk result.1 (Splits M.caller_of pass result.0) }
        ensures kept { OnErr result.1 (result.0 ≡ pass) }
        ensures theirs { IsOf self.now result.0 × IfOk result.1 (IsOf self.now) }
    {
        let Pass { number, mut seat } = pass;
        let top = &self.table.shared;
        let drawn = draw_number(rt, top, &mut seat);
        let other = top.split_seat::<Cut>(&mut seat);
        let new = Pass {
            number: drawn,
            seat: other,
        };
        let pass = Pass { number, seat };
        (pass, Ok(new))
    }

    /// Makes one pass of two, which keeps the number of `keep`.
    ///
    /// It has seen the longer of the two histories, which goes on from the other.
    pub fn join_pass(&self, keep: Pass<M>, give: Pass<M>) -> Pass<M>
        requires keep { IsOf self.now keep }
        requires give { IsOf self.now give }
        ensures joins { Joins M.caller_of keep give result }
        ensures theirs { IsOf self.now result }
    {
        let Pass { number, mut seat } = keep;
        let Pass {
            number: _,
            seat: other,
        } = give;
        let top = &self.table.shared;
        top.join_seat::<Merge>(&mut seat, other);
        top.load::<LearnFirst>(&mut seat, 0);
        Pass { number, seat }
    }

    /// Lets two passes see one history, the longer of the two that they have seen, which goes on from the other.
    pub fn meet<R: Wait>(&self, _rt: &R, a: Pass<M>, b: Pass<M>) -> (Pass<M>, Pass<M>)
        requires first { IsOf self.now a }
        requires second { IsOf self.now b }
        ensures first { Joins M.caller_of a b result.0 }
        ensures second { Joins M.caller_of b a result.1 }
        ensures one { result.0.seen ≡ result.1.seen }
        ensures theirs { IsOf self.now result.0 × IsOf self.now result.1 }
    {
        let Pass { number, mut seat } = a;
        let Pass {
            number: other_number,
            seat: other,
        } = b;
        let top = &self.table.shared;
        top.join_seat::<Merge>(&mut seat, other);
        top.load::<LearnBoth>(&mut seat, 0);
        let other = top.split_seat::<Cut>(&mut seat);
        let first = Pass { number, seat };
        let second = Pass {
            number: other_number,
            seat: other,
        };
        (first, second)
    }

    /// Takes a last turn, and gives the machine. Its history begins with all that the pass has seen, and is exactly
    /// that where the pass is alone.
    pub fn close<R: Wait>(self, rt: &R, pass: Pass<M>) -> M
        requires { IsOf self pass }
        ensures reaches { Reaches M.caller_of pass (M.history result) }
        ensures fixed { M.fixed result ≡ self.fixed }
        ensures legal { IsLegal (M.takes (M.fixed result)) (M.allows (M.fixed result)) (M.history result) }
    {
        let Pass {
            number: _,
            mut seat,
        } = pass;
        let top = &self.table.shared;
        let machine = enter(rt, top, &mut seat);
        publish::<M, Brand>(top, &mut seat, &machine, 0);
        machine
    }
}
