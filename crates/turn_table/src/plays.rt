//! What each step at a turn's table tells. These types are for the contracts alone.

use crate::Machine;
use crate::seats::Knows;
use atomic_table::{Join, Play, Split};
use std::marker::{Brand, PhantomData};

/// The history that a publish tells. A call at `Brand` picks it.
pub trait Told<E> {
    ghost use Rattle.std.specs.Prelude.{List};

    ghost told: { List E };
}

impl<E> Told<E> for Brand {
    ghost use Rattle.std.specs.Prelude.{[]};

    ghost told = { [] };
}

/// A ticket is drawn.
pub struct Draw;

impl<M: Machine> Play<Option<M>, Knows<M::Entry, M::Fixed>> for Draw {
    ghost use Rattle.turn_table.specs.Rule.{drawn};

    ghost then = { drawn };
}

/// The ticket that is served is read. Where it is the seat's, the machine goes out with the seat.
pub struct Ask;

impl<M: Machine> Play<Option<M>, Knows<M::Entry, M::Fixed>> for Ask {
    ghost use Rattle.turn_table.specs.Rule.{asked, meaning};

    ghost then = { asked (meaning M.history M.fixed M.caller_of M.takes M.allows) };
}

/// The machine's history becomes the table's.
pub struct Publish<N> {
    told: PhantomData<N>,
}

impl<M: Machine, N: Told<M::Entry>> Play<Option<M>, Knows<M::Entry, M::Fixed>> for Publish<N> {
    ghost use Rattle.turn_table.specs.Rule.{gave_out};

    ghost then = { gave_out N.told };
}

/// The next ticket is served, and the machine is at home.
pub struct PassOn;

impl<M: Machine> Play<Option<M>, Knows<M::Entry, M::Fixed>> for PassOn {
    ghost use Rattle.turn_table.specs.Rule.{passed_on};

    ghost then = { passed_on };
}

/// A number is drawn.
pub struct DrawNumber;

impl<M: Machine> Play<Option<M>, Knows<M::Entry, M::Fixed>> for DrawNumber {
    ghost use Rattle.turn_table.specs.Rule.{drew_number, meaning};

    ghost then = { drew_number (meaning M.history M.fixed M.caller_of M.takes M.allows) };
}

/// A seat with two numbers becomes two seats.
pub struct Cut;

impl<E, F> Split<Knows<E, F>> for Cut {
    ghost use Rattle.turn_table.specs.Rule.{left_of, right_of};

    ghost left = { left_of };

    ghost right = { right_of };
}

/// Two seats become one, which has the numbers of both.
pub struct Merge;

impl<E, F> Join<Knows<E, F>> for Merge {
    ghost use Rattle.turn_table.specs.Rule.{both_of, spent};

    ghost both = { both_of };

    ghost spent = { spent };
}

/// A seat that took in another learns which of their histories goes on from which. It keeps both numbers.
pub struct LearnBoth;

impl<M: Machine> Play<Option<M>, Knows<M::Entry, M::Fixed>> for LearnBoth {
    ghost use Rattle.turn_table.specs.Rule.{learned, meaning, with_both};

    ghost then = { learned (meaning M.history M.fixed M.caller_of M.takes M.allows) with_both };
}

/// The same. It keeps its first number.
pub struct LearnFirst;

impl<M: Machine> Play<Option<M>, Knows<M::Entry, M::Fixed>> for LearnFirst {
    ghost use Rattle.turn_table.specs.Rule.{learned, meaning, with_first};

    ghost then = { learned (meaning M.history M.fixed M.caller_of M.takes M.allows) with_first };
}
