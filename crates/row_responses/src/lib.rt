//! The responses of a ReadRows call, made from a lease.
//!
//! Rows are cut from the front into responses, each as long as it may be: of at most [`MAX_RESPONSE_ROWS`] rows and at most
//! [`MAX_RESPONSE_BYTES`] bytes of their data in Avro's encoding, or of one longer row alone. Each response gives the data
//! and their count, and the first one of a call gives the schema too. Where there is no row there is no response.
//!
//! A [`ReadBody`] gives them one by one. Between two of them it keeps its lease and its place, and no row and no buffer, so
//! it may be held for long. Rows are written straight from where the lease keeps them.
//!
//! In `specs/Responses` the rows have the chosen columns alone, as those that a cursor's `rows_left` lists, and `columns`
//! are the chosen ones. `specs/Cut` says how a list is cut, `specs/Body` what a body gives. [`rows_stay_rows`] says what the
//! cut leaves of the rows.
#![tactic(auto)]

mod batch;
mod body;
mod law;
mod limits;

pub use body::{NextResponse, ReadBody};
pub use law::rows_stay_rows;
pub use limits::{MAX_RESPONSE_BYTES, MAX_RESPONSE_ROWS};
