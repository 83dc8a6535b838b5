//! Row restrictions: the text of a condition on rows, read into a predicate over a schema's columns.
//!
//! [`parse_restriction`] reads a text, whose grammar is a profile of GoogleSQL's WHERE (`docs/RESTRICTIONS.md`), in
//! one pass and without recursion: `lexer` gives the next token, `parser` takes it, and a test is typed by `meaning`
//! as soon as it is whole. Days and instants in text are read in `moment`, with the calendar of `jiff`.
//!
//! The contract stands on four definitions of `specs/`: `Text`, the tokens of a list of bytes; `Grammar`, trees by
//! the format's productions and the tokens that they spell; `Meaning` and `Literal`, what a tree says of a schema;
//! and `Restriction`, the cause of each answer. [`one_answer`] says that a text has one answer, [`restriction_answers`]
//! which it is, as a function of the schema and the text. The predicate is typed for the schema, as `column_types` defines
//! it.
#![tactic(auto)]

mod fault;
mod lexer;
mod limits;
mod literal;
mod meaning;
mod moment;
mod parser;
mod restriction;
mod token;

pub use fault::FilterFault;
pub use limits::{MAX_BYTES, MAX_DEPTH, MAX_LITERALS};
pub use restriction::{one_answer, parse_restriction, restriction_answers};
