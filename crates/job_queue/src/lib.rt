//! A queue of jobs that waits and can be closed.
//!
//! One thread puts jobs and closes the queue, others take them until it is closed and empty. Each has a [`Hand`], which
//! knows what it put and took. `specs/Queue` has the rule of the queue: each job that was taken was put, and as many were
//! put as were taken and are left. Whoever has all parts of the hands learns it by [`Queue::left`].
#![tactic(auto)]

mod hands;
mod queue;

pub use hands::{Cut, Fair, Known, Puts, Takes, Total};
pub use queue::{Hand, Queue};
