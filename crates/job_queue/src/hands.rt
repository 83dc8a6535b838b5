//! What a hand knows of a queue, and the queue's rule. No value of these types is made: contracts read them.

use crossbeam_queue::protocol::{Join, Lesson, Outcome, Protocol, Split};
use std::collections::LinkedList;
use std::marker::PhantomData;

/// What a hand knows.
pub struct Known<T> {
    /// Its parts of the right to know the whole.
    pub parts: u64,
    /// Whether it may put.
    pub puts: bool,
    /// What was put, where it may put.
    pub put: LinkedList<T>,
    /// What it took.
    pub taken: LinkedList<T>,
}

/// The rule of a queue.
pub struct Fair<T> {
    job: PhantomData<T>,
}

impl<T> Protocol<T, Known<T>> for Fair<T> {
    ghost use Rattle.job_queue.specs.Queue.{Balanced, newcomer};

    ghost holds = { Balanced };

    ghost first = { newcomer };
}

/// A hand for a taker is made, or joined again.
pub struct Cut;

impl<T> Split<Known<T>> for Cut {
    ghost use Rattle.job_queue.specs.Queue.{less, taker};

    ghost left = { less };

    ghost right = { λ v. taker };
}

impl<T> Join<Known<T>> for Cut {
    ghost use Rattle.job_queue.specs.Queue.{both, spent};

    ghost both = { both };

    ghost spent = { spent };
}

/// A job is put.
pub struct Puts;

impl<T> Outcome<T, Known<T>> for Puts {
    ghost use Rattle.std.specs.Prelude.{◌≡◌};
    ghost use Rattle.job_queue.specs.Queue.{putting};

    ghost then = { λ v x w. w ≡ putting v x };
}

/// A job is taken.
pub struct Takes;

impl<T> Outcome<T, Known<T>> for Takes {
    ghost use Rattle.std.specs.Prelude.{◌≡◌};
    ghost use Rattle.job_queue.specs.Queue.{taking};

    ghost then = { λ v x w. w ≡ taking v x };
}

impl<T> Lesson<T, Known<T>> for Takes {
    ghost use Rattle.std.specs.Prelude.{⊤};

    ghost fact = { λ v items. ⊤ };
}

/// What the hand with all parts learns.
pub struct Total;

impl<T> Lesson<T, Known<T>> for Total {
    ghost use Rattle.std.specs.Prelude.{length};
    ghost use Rattle.job_queue.specs.Queue.{Settles};

    ghost fact = { λ v items. Settles v (length items) };
}
