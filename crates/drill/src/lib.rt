//! A table driven from inside the program.
//!
//! [`drain`] reads a session through a cut of its split tree: it begins with the session's roots and follows a list of
//! [`Move`]s, each of which reads some rows of a node, or splits a node while it is read; at the end it reads each node of
//! the cut from its next offset to its end. What it gives are the session's rows, each once, whatever other passes do to
//! the table between any two of its steps.
//!
//! [`summary`] is the drill: four writers, whose rows [`rows_of`] makes, and a reader run at once over one table, and five
//! lines tell of the history that they leave.
//!
//! `specs/Moves` says which cut the moves lead to, `specs/Drains` what a drain gives, when each of its faults comes, and
//! which entries its pass gains; `specs/Rows` which rows the writers send, `specs/Table` the drill's table and the session
//! that is drained at its end, and `specs/Summary` what the five lines say.
#![tactic(auto)]

mod batches;
mod crew;
mod drain_ends;
mod drain_parts;
mod drain_reads;
mod drain_steps;
mod drained;
mod drains;
mod drills;
mod held;
mod lines;
mod moves;
mod readers;
mod roots;
mod scripts;
mod table;
mod writers;

pub use batches::rows_of;
pub use drained::{DrainFault, Drained};
pub use drains::drain;
pub use drills::{Drill, summary};
pub use moves::Move;
