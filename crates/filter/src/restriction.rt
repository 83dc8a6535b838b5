//! Restrictions, read whole.

ghost use Rattle.std.specs.Prelude.{◌≡◌, ◌≤◌, ◌<◌, ◌+◌, ◌⊎◌, ◌↔◌, ℕ, IfOk, IsTrue, IsUtf8, length, if◌then◌else◌, List, Result};
ghost use Rattle.column_types.specs.Typed.{IsTyped};
ghost use Rattle.column_types.specs.declared.column.Column.{Column};
ghost use Rattle.column_types.specs.declared.predicate.Pred.{Pred};
ghost use Rattle.filter.specs.declared.fault.FilterFault.{FilterFault};
ghost use Rattle.filter.specs.Computed.{IsRestriction, RestrictionsAreAnswered};
ghost use Rattle.filter.specs.Machine.{depth_of};
ghost use Rattle.filter.specs.Reading.{Takes, Reads};
ghost use Rattle.filter.specs.Restriction.{Answers, IsOneAnswer, ends_literal};

use crate::fault::FilterFault;
use crate::lexer::{Found, TokenFault, blank_len, token_at};
use crate::limits::{MAX_BYTES, MAX_DEPTH, MAX_LITERALS};
use crate::meaning::{Meaning, TestFault};
use crate::parser::{State, StepFault, end, start, step};
use crate::token::Token;
use column_types::{Pred, Schema};
use outside::Memory;
use std::alloc::Global;

/// A text up to some place.
#[derive(Drop)]
pub struct Reading {
    pub state: State,
    /// The literals so far.
    pub literals: u32,
    /// The place of the next token, or the text's length.
    pub at: usize,
}

/// Why a text has no meaning.
#[derive(Drop)]
pub enum ReadFault {
    /// Want of memory.
    Memory,
    /// A limit is passed.
    Long,
    /// What begins at byte `at` can't follow.
    Syntax { at: usize },
}

/// 1 for a token that is the last of a literal, else 0.
fn literal_ends(token: &Token) -> u32
    ensures { result ≡ (if ends_literal token.now then 1 else 0) }
{
    match token {
        Token::Integer(_) | Token::Str(_) | Token::True | Token::False => 1,
        _ => 0,
    }
}

/// How many parentheses and NOTs stand around what is read next.
fn depth_of(state: &State) -> u64
    ensures { result ≡ depth_of state.now }
{
    u64::from(state.group.depth) + u64::from(state.group.nots)
}

/// Whether a state with so many literals is past a limit.
fn is_past_limits(state: &State, literals: u32) -> bool
    ensures { IsTrue result ↔ ((MAX_DEPTH < depth_of state.now) ⊎ (MAX_LITERALS < literals)) }
{
    depth_of(state) > u64::from(MAX_DEPTH) || literals > MAX_LITERALS
}

/// Takes the token at the place of a reading.
fn take_token(
    alloc: Global,
    schema: &Schema,
    reading: Reading,
    text: &[u8],
) -> Result<Reading, ReadFault>
    requires place { reading.at < length text.now }
    requires utf8 { IsUtf8 text.now }
    requires depth { depth_of reading.state ≤ MAX_DEPTH }
    requires literals { reading.literals ≤ MAX_LITERALS }
    ensures { Takes schema.now reading text.now result }
{
    let Reading {
        state,
        literals,
        at,
    } = reading;
    let Found { token, len } = match token_at(alloc, &text[at..]) {
        Ok(found) => found,
        Err(TokenFault::Memory) => return Err(ReadFault::Memory),
        Err(TokenFault::NoToken) => return Err(ReadFault::Syntax { at }),
    };
    let literals = literals + literal_ends(&token);
    let state = match step(alloc, schema, state, token) {
        Ok(state) => state,
        Err(StepFault::Memory) => return Err(ReadFault::Memory),
        Err(StepFault::Refused) => return Err(ReadFault::Syntax { at }),
    };
    if is_past_limits(&state, literals) {
        return Err(ReadFault::Long);
    }
    Ok(Reading {
        state,
        literals,
        at: at + len,
    })
}

/// What a text means.
fn read(alloc: Global, schema: &Schema, text: &[u8]) -> Result<Meaning, ReadFault>
    requires { IsUtf8 text.now }
    ensures { Reads schema.now text.now result }
{
    let mut reading = Reading {
        state: start(alloc),
        literals: 0,
        at: blank_len(text),
    };
    'tokens: while reading.at < text.len() {
        match take_token(alloc, schema, reading, text) {
            Ok(next) => reading = next,
            Err(fault) => return Err(fault),
        }
        reading.at += blank_len(&text[reading.at..]);
    }
    match end(alloc, schema, reading.state) {
        Ok(Some(meaning)) => Ok(meaning),
        Ok(None) => Err(ReadFault::Syntax { at: text.len() }),
        Err(Memory) => Err(ReadFault::Memory),
    }
}

/// The predicate of a restriction, or why there is none.
fn answer_to(alloc: Global, text: &str, schema: &Schema) -> Result<Pred, FilterFault>
    ensures cause { Answers schema.now text.now result }
    ensures typed { IfOk result (IsTyped schema.now) }
{
    if text.len() > MAX_BYTES {
        return Err(FilterFault::Long);
    }
    match read(alloc, schema, text.as_bytes()) {
        Ok(Ok(pred)) => Ok(pred),
        Ok(Err(TestFault::UnknownColumn { name })) => Err(FilterFault::UnknownColumn { name }),
        Ok(Err(TestFault::IllTyped { name })) => Err(FilterFault::IllTyped { name }),
        Err(ReadFault::Memory) => Err(FilterFault::Memory),
        Err(ReadFault::Long) => Err(FilterFault::Long),
        Err(ReadFault::Syntax { at }) => Err(FilterFault::Syntax { at }),
    }
}

/// The predicate of a restriction over the columns of a schema.
///
/// `Long` comes first for a text of more than 16,384 bytes. Then from the left comes `Syntax` at the first byte of
/// the first token, or of what is no token, with which the grammar can't go on, or at the text's length where it
/// ends too early; and `Long` at the 1,025th literal, or where parentheses of groups and NOTs before operands stand
/// 65 deep. Then from the left, test by test, come `UnknownColumn` and `IllTyped`.
///
/// The predicate is typed for the schema, as `truth` wants it.
#[tactic(auto, using(crate::proofs::Computed::restriction_is))]
pub fn parse_restriction(alloc: Global, text: &str, schema: &Schema) -> Result<Pred, FilterFault>
    ensures cause { Answers schema.now text.now result }
    ensures value { IsRestriction schema.now text.now result }
    ensures typed { IfOk result (IsTyped schema.now) }
{
    answer_to(alloc, text, schema)
}

/// A text has one answer, but for want of memory: whatever the answer is, its cause is there, and no other's.
pub fn one_answer()
    ensures { (columns : List Column) (text : List ℕ) (a b : Result Pred FilterFault) → Answers columns text a → Answers columns text b → IsOneAnswer a b }
{}

/// `restriction_of`, which other crates' definitions name, is the answer of a text, and no want of memory.
pub fn restriction_answers()
    ensures { RestrictionsAreAnswered }
{}
