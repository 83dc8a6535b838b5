//! The program's commands over bytes, links, doors and clocks in memory: what they read, write and answer, byte for byte.
//!
//! The crate has tests alone, so that no crate below is proved twice.
#![tactic(auto)]

#[cfg(test)]
mod body_tests;
#[cfg(test)]
mod client_tests;
#[cfg(test)]
mod crowd_tests;
#[cfg(test)]
mod drill_tests;
#[cfg(test)]
mod pipe_tests;
#[cfg(test)]
mod serve_tests;
#[cfg(test)]
mod typed_tests;
