//! The literals of a restriction, and their values in a column.

ghost use Rattle.std.specs.Prelude.{◌≡◌, ◌<◌, ℕ, IfOk, map};
ghost use Rattle.filter.specs.Literal.{cell_of, cells_of, date_cell, timestamp_cell};

use crate::moment::{date_of, instant_of};
use column_types::{Cell, Cells, Kind};
use outside::{Memory, Text};
use sqlite_items::Items;
use std::alloc::Global;

/// A literal.
#[derive(Drop)]
pub enum Literal {
    Integer(i64),
    Str(Text),
    Bool(bool),
    /// `DATE` and a string.
    Date(Text),
    /// `TIMESTAMP` and a string.
    Timestamp(Text),
}

/// Literals, which contracts see as their list.
pub type Literals = Items<Literal>;

/// The value of a literal in a column of this kind. None is given where the literal is of another type.
#[tactic(auto, unfolding(crate::specs::Literal::cell_of))]
pub fn cell_of(alloc: Global, kind: Kind, literal: &Literal) -> Result<Option<Cell>, Memory>
    ensures { IfOk result (λ value. value ≡ cell_of kind literal.now) }
{
    let value = match (kind, literal) {
        (Kind::Int64, Literal::Integer(n)) => Some(Cell::Int(*n)),
        (Kind::Bool, Literal::Bool(b)) => Some(Cell::Bool(*b)),
        (Kind::Str, Literal::Str(s)) => Some(Cell::Str(Text::of(alloc, s.text())?)),
        (Kind::Date, Literal::Str(s) | Literal::Date(s)) => date_cell(s.text().as_bytes()),
        (Kind::Timestamp, Literal::Str(s) | Literal::Timestamp(s)) => {
            timestamp_cell(s.text().as_bytes())
        }
        _ => None,
    };
    Ok(value)
}

fn date_cell(text: &[u8]) -> Option<Cell>
    ensures { result ≡ date_cell text.now }
{
    match date_of(text) {
        Some(day) => Some(Cell::Date(day)),
        None => None,
    }
}

fn timestamp_cell(text: &[u8]) -> Option<Cell>
    ensures { result ≡ timestamp_cell text.now }
{
    match instant_of(text) {
        Some(instant) => Some(Cell::Timestamp(instant)),
        None => None,
    }
}

/// The values of literals, all of which are of the column's type.
pub fn cells_of(alloc: Global, kind: Kind, literals: &[Literal]) -> Result<Option<Cells>, Memory>
    ensures { IfOk result (λ values. values ≡ cells_of kind literals.now) }
{
    let mut values = Vec::with_capacity(alloc, literals.len())?;
    for literal in literals {
        let Some(value) = cell_of(alloc, kind, literal)? else {
            return Ok(None);
        };
        values.push(value)?;
    }
    Ok(Some(Items::from_vec(values)))
}
