//! The turn table: one machine, at which all who have a pass to it take turns.
//!
//! A [`Machine`] answers commands one after another. Its meaning is its history, the list of the accepted commands'
//! entries, and a fixed part that no call changes. It names the replies and the looks that a history allows, and
//! its steps and looks are by these. `specs/Turn` says what one step does, and which histories are legal for a machine.
//!
//! A [`Turn`] is the table, which threads share, and a [`Pass`] the right to act on it, which one thread has. A pass has
//! seen a history, which is legal, and [`Turn::act`] answers at a history that begins with that: what stands behind it
//! are other passes' entries. [`Turn::look`] tells of such a history, and adds no entry. A pass that is alone meets no
//! others' entries, so that its histories are computed. `specs/View` says what a pass shows and what an act, a look, a
//! split and a join do to it.
//!
//! Turns are taken by tickets, in the order in which these are drawn. `specs/Rule` is the rule that the table keeps at
//! each step, whoever makes it.
#![tactic(auto)]

mod laws;
mod machine;
mod plays;
mod seats;
mod steps;
mod turn;

pub use laws::{fronts_are_legal, steps_stay_legal};
pub use machine::{LATEST_READING, Machine};
pub use turn::{Pass, Turn};
