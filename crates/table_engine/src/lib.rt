//! The fast table: an [`Engine`] answers each command by what it keeps of its history, and never walks it.
//!
//! It keeps each row once. The rows of an append stand behind an `Arc` in its entry; the visible rows are slices of
//! them in the groups that readers get ([`Engine::spine`]), and so are the rows that wait for a flush or a commit, stream
//! by stream. A flush or a commit moves slices, and cuts one in two at most; no row is copied.
//!
//! Beside them the engine keeps a state for each write stream, the read sessions with their split trees, how many rows were
//! visible from which moment on, the count of each caller's entries, the size of all rows and the latest moment. All
//! growths of a step are made before anything is changed.
//!
//! [`Engine::look`] tells what a node of a read session reads: a lease of the visible rows, which stays as it is while rows
//! are added behind them.
//!
//! The engine's contract is that of the plain table of `table_model`: the reply is the answer of the definition at
//! the history, which grows by exactly the accepted entry. `specs/Keeps` says how what is kept follows from the history,
//! `specs/Stored` and `specs/Waiting` where its rows are, and `specs/Looks` what a look tells.
#![tactic(auto)]

mod callers;
mod changes;
mod copies;
mod engine;
mod kept;
mod laws;
mod looks;
mod storing;
mod streams;
mod waiting;

pub use engine::Engine;
pub use laws::machine_histories_are_legal;
pub use looks::{Held, Key};
pub use table_spec::TableSpec;
