//! The words of the command line.
//!
//! The first word is the command: `body`, `pipe`, `serve` or `drill`. After it stand options in any order, as
//! `--name value`, where the value does not begin with `-`, or as `--name=value`, and bare words. A value or a bare
//! word has at least one byte. There is no `--`, no short option, no abbreviation and no help option.
//!
//! | command | takes |
//! |---|---|
//! | `body` | `--table SPEC` at most once |
//! | `pipe` | `--table SPEC` 1 to 8 times |
//! | `serve` | `--listen ADDR`, `--workers W` and `--connections N` once each, `--table SPEC` 1 to 8 times |
//! | `drill` | one bare word N |
//!
//! Numbers are decimal digits without sign or leading zero: W is 1 to 32, N of `serve` 1 to 65,536 and N of `drill`
//! 1 to 10,000. ADDR is `a.b.c.d:port`, with a to d from 0 to 255 and port from 0 to 65,535. SPEC is what
//! [`table_spec::TableSpec::parse`] reads; the tables of one line have different names. [`command_of`] reads the words; [`one_line`] is the
//! law behind it: words are at most one command line.
#![tactic(auto)]

mod commands;
mod given;
mod line;
mod lines;
mod numbers;
mod tables;

pub use line::{CommandLine, LineFault};
pub use lines::{command_of, one_line};
pub use tables::TableSpecs;
