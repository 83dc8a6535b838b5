//! Flow-control windows of HTTP/2 as exact sums (RFC 9113 sections 5.2 and 6.9).
//!
//! - [`Window`] is what may still be sent, or still be received, on one stream or on the connection, in bytes.
//! - [`Overflow`] and [`Overrun`] are its two refusals; a refused call leaves the window as it was.
//! - [`sums_are_exact`] is the law over any list of calls: a window is its start, and what was granted,
//!   less what was spent; what was spent never exceeds what was granted.
#![tactic(auto)]

mod laws;
mod window;

pub use laws::sums_are_exact;
pub use window::{Overflow, Overrun, Window};
