//! The table behind a turn: what each of its seats knows, and its rule.
//!
//! The words are the tickets drawn, the ticket that is served, the numbers given and the length of the history. The
//! slot holds the machine where no seat has the turn. No value of [`Knows`] or [`Stage`] is made: contracts read them.

use crate::Machine;
use atomic_table::{Seat, Shared, Table, TableRule};
use std::alloc::Global;
use std::collections::LinkedList;
use std::marker::PhantomData;
use std::snapshot::Snapshot;

/// Where a seat is on its way through a turn.
pub enum Stage<E> {
    /// It has no ticket.
    Idle,
    /// It has drawn this ticket.
    Waits(u64),
    /// Its ticket is served, and the machine has this history.
    Holds(u64, LinkedList<E>),
    /// It took in another seat. These are the histories that the two had seen.
    Joined(LinkedList<E>, LinkedList<E>),
}

/// What a seat knows.
pub struct Knows<E, F> {
    /// The number of its pass.
    pub first: u64,
    /// A second number, between a draw or a join and the split that follows.
    pub second: Option<u64>,
    /// Above its numbers.
    pub bound: u64,
    /// No other seat acts.
    pub alone: bool,
    /// The history that it has seen.
    pub seen: LinkedList<E>,
    pub stage: Stage<E>,
    /// The fixed part of the machine; None where the seat is spent.
    pub fixed: Option<F>,
}

/// The rule of a turn's table.
pub struct Turns<M> {
    machine: PhantomData<M>,
}

impl<M: Machine> TableRule<Option<M>, Knows<M::Entry, M::Fixed>, Snapshot<M>> for Turns<M> {
    ghost use Rattle.turn_table.specs.Rule.{Orderly, meaning, newcomer};

    ghost holds = { λ key. Orderly (meaning M.history M.fixed M.caller_of M.takes M.allows) (M.fixed key.value) };

    ghost first = { λ key. newcomer (M.fixed key.value) };
}

/// A turn's table with its memory.
pub(crate) type Board<M> = Table<
    Option<M>,
    Knows<<M as Machine>::Entry, <M as Machine>::Fixed>,
    Snapshot<M>,
    Turns<M>,
    Global,
>;

/// A turn's table as its seats step on it.
pub(crate) type Top<M> = Shared<
    Option<M>,
    Knows<<M as Machine>::Entry, <M as Machine>::Fixed>,
    Snapshot<M>,
    Turns<M>,
>;

/// A seat at a turn's table.
pub(crate) type Place<M> = Seat<Option<M>, Knows<<M as Machine>::Entry, <M as Machine>::Fixed>>;
