//! The limits, codes and numbers of fields that code and definitions share, in figures.
//!
//! A definition names a limit by its constant, so that a change of the constant alone would change code and definition
//! together, and everything would still be proved. Here each of these constants has its figure, with its unit and where
//! it comes from, as the contract of a function that does nothing.
#![tactic(auto)]

mod calls;
mod connections;
mod names;
mod read_messages;
mod reading;
mod stream_messages;
mod tables;
mod values;
mod write_messages;

pub use calls::calls_in_figures;
pub use connections::{codes_in_figures, connections_in_figures, frames_in_figures};
pub use names::names_in_figures;
pub use read_messages::{read_options_in_figures, read_sessions_in_figures, reads_in_figures};
pub use reading::{reading_in_figures, restrictions_in_figures, sessions_in_figures};
pub use stream_messages::{schemas_in_figures, write_streams_in_figures};
pub use tables::{clocks_in_figures, stream_errors_in_figures, tables_in_figures};
pub use values::{columns_in_figures, days_in_figures, instants_in_figures, numbers_in_figures};
pub use write_messages::{
    append_requests_in_figures, append_responses_in_figures, commits_in_figures,
    stream_requests_in_figures,
};
