//! The connections of a door, served by several workers at once over one set of tables, and the report on the tables.
//!
//! [`serve`] listens, takes the links that the door gives, serves and closes each, and hands it back. How one connection
//! ended changes nothing for the others. Then [`report`] closes the tables and writes a line for each.
//!
//! The calling thread asks the door and puts the links into a queue (asking), and each worker, on a thread of its own, takes
//! one after another from it (workers, crew). A worker has passes to the tables of its own, split from the given ones
//! (splits, teams). Once all have stopped, the passes are joined again, what is left in the queue is served, and the links
//! are handed back (finishing).
//!
//! `specs/Visits` says what it is that links were served one after another, `specs/Report` what is written of closed
//! tables, and `specs/Serving` what `serve` does, for any number of workers.
#![tactic(auto)]

mod asking;
mod crew;
mod faults;
mod finishing;
mod lines;
mod reports;
mod serving;
mod splits;
mod teams;
mod workers;

pub use faults::ServeFault;
pub use reports::report;
pub use serving::serve;
