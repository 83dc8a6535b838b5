//! The codes that HPACK spells header fields with (RFC 7541): integers with a prefix, section 5.1,
//! and the canonical Huffman code, section 5.2 and appendix B.
//!
//! - [`read_int`] and [`write_int`], with [`IntFault`];
//! - [`huffman_decode`] and [`huffman_len`], with [`HuffFault`];
//! - [`code_is_complete`], a law of the code.
#![tactic(auto)]

mod faults;
mod huffman;
mod ints;
mod reader;
mod tables;

pub use faults::{HuffFault, IntFault};
pub use huffman::{code_is_complete, huffman_decode, huffman_len};
pub use ints::{read_int, write_int};
