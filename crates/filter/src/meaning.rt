//! What a test says of the columns of a schema.

ghost use Rattle.std.specs.Prelude.{◌≡◌, ◌<◌, ℕ, IfOk};
ghost use Rattle.filter.specs.Meaning.{column_named, test_meaning, negation, negation_if, conjunction, disjunction};
ghost use Rattle.filter.specs.Reading.{said_by};

use crate::literal::{Literal, Literals, cell_of, cells_of};
use column_types::{Cell, Kind, Op, Pred, Schema};
use outside::{Memory, Text};
use sqlite_items::Boxed;
use std::alloc::Global;

/// Why a test says nothing.
#[derive(Drop)]
pub enum TestFault {
    /// No column has this name, without ASCII case.
    UnknownColumn { name: Text },
    /// The column of this name is of another type than the test.
    IllTyped { name: Text },
}

/// The predicate of a part of a restriction, or the fault of its first bad test from the left.
pub type Meaning = Result<Pred, TestFault>;

/// What a test says behind its column.
#[derive(Drop)]
pub enum Claim {
    /// Nothing: it means `= TRUE`.
    Bare,
    /// A comparison.
    Compared(Op, Literal),
    /// IS NULL.
    IsNull,
    /// IN.
    Among(Literals),
}

/// The number and the kind of the column of this name.
fn column_named(schema: &Schema, name: &str) -> Option<(u32, Kind)>
    ensures { result ≡ column_named schema.now name.now }
{
    let at = schema.number_of(name)?;
    let column = schema.columns().get(at)?;
    Some((at as u32, column.kind))
}

/// What a claim says of a column.
fn said_by(alloc: Global, claim: &Claim, number: u32, kind: Kind) -> Result<Option<Pred>, Memory>
    ensures { IfOk result (λ said. said ≡ said_by claim.now number kind) }
{
    let said = match claim {
        Claim::Bare => match kind {
            Kind::Bool => Some(Pred::Compare {
                column: number,
                op: Op::Eq,
                value: Cell::Bool(true),
            }),
            _ => None,
        },
        Claim::Compared(op, literal) => match cell_of(alloc, kind, literal)? {
            Some(value) => Some(Pred::Compare {
                column: number,
                op: *op,
                value,
            }),
            None => None,
        },
        Claim::IsNull => Some(Pred::IsNull { column: number }),
        Claim::Among(literals) => match cells_of(alloc, kind, literals.as_slice())? {
            Some(values) => Some(Pred::Among {
                column: number,
                values,
            }),
            None => None,
        },
    };
    Ok(said)
}

/// What a test means.
#[tactic(auto, unfolding(crate::specs::Meaning::test_meaning))]
pub fn test_meaning(
    alloc: Global,
    schema: &Schema,
    name: Text,
    claim: &Claim,
) -> Result<Meaning, Memory>
    ensures { IfOk result (λ meaning. meaning ≡ test_meaning schema.now name (said_by claim.now)) }
{
    let Some((number, kind)) = column_named(schema, name.text()) else {
        return Ok(Err(TestFault::UnknownColumn { name }));
    };
    match said_by(alloc, claim, number, kind)? {
        Some(said) => Ok(Ok(said)),
        None => Ok(Err(TestFault::IllTyped { name })),
    }
}

/// The negation of a meaning.
pub fn negation(alloc: Global, meaning: Meaning) -> Result<Meaning, Memory>
    ensures { IfOk result (λ not. not ≡ negation meaning) }
{
    match meaning {
        Ok(inner) => Ok(Ok(Pred::Not(Boxed::new(alloc, inner)?))),
        Err(fault) => Ok(Err(fault)),
    }
}

/// The negation of a meaning, where it is negated.
pub fn negation_if(alloc: Global, negated: bool, meaning: Meaning) -> Result<Meaning, Memory>
    ensures { IfOk result (λ not. not ≡ negation_if negated meaning) }
{
    if negated {
        negation(alloc, meaning)
    } else {
        Ok(meaning)
    }
}

/// Both meanings joined by AND.
pub fn conjunction(alloc: Global, left: Meaning, right: Meaning) -> Result<Meaning, Memory>
    ensures { IfOk result (λ both. both ≡ conjunction left right) }
{
    match (left, right) {
        (Ok(left), Ok(right)) => {
            let left = Boxed::new(alloc, left)?;
            let right = Boxed::new(alloc, right)?;
            Ok(Ok(Pred::And(left, right)))
        }
        (Err(fault), _) | (_, Err(fault)) => Ok(Err(fault)),
    }
}

/// Both meanings joined by OR.
pub fn disjunction(alloc: Global, left: Meaning, right: Meaning) -> Result<Meaning, Memory>
    ensures { IfOk result (λ either. either ≡ disjunction left right) }
{
    match (left, right) {
        (Ok(left), Ok(right)) => {
            let left = Boxed::new(alloc, left)?;
            let right = Boxed::new(alloc, right)?;
            Ok(Ok(Pred::Or(left, right)))
        }
        (Err(fault), _) | (_, Err(fault)) => Ok(Err(fault)),
    }
}
