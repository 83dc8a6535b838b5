//! Whether a row meets a condition.

ghost use Rattle.std.specs.Prelude.{◌≡◌};
ghost use Rattle.std.specs.List.{list_any};
ghost use Rattle.column_types.specs.Truth.{order_of, holds_at, comparison_of, is_equal, among_of, is_null as is_null_cell, cell_at, truth_of};

use crate::cell::Cell;
use crate::predicate::{Op, Pred};
use crate::row::Row;
use crate::truths::Truth;
use sqlite_items::at;
use std::cmp::Ordering;

/// The truth of a condition at a row. Where the row has no cell for a column, or one of another kind than the value
/// that it is compared with, the answer is that of NULL; a typed predicate and a row that fits have no such place.
///
/// AND is the lesser of its sides and OR the greater, where no is below unknown and unknown below yes. So the truth of
/// a chain that groups from the left is that of its first part, held between two bounds that the parts behind it move:
/// the chain is walked by a loop, from its end, which stops where the bounds meet. Right sides and NOT recurse.
pub fn truth(pred: &Pred, row: &Row) -> Truth
    ensures { result ≡ truth_of pred.now row.now }
{
    let mut low = Truth::No;
    let mut high = Truth::Yes;
    let mut here = pred;
    while low.or(high) != low {
        match here {
            Pred::And(left, right) => {
                high = high.and(truth(right.get(), row));
                here = left.get();
            }
            Pred::Or(left, right) => {
                low = low.or(high.and(truth(right.get(), row)));
                here = left.get();
            }
            Pred::Not(inner) => return low.or(high.and(truth(inner.get(), row).negated())),
            Pred::All => return low.or(high.and(Truth::Yes)),
            Pred::Compare { column, op, value } => {
                return low.or(high.and(comparison(row, *column, *op, value)));
            }
            Pred::Among { column, values } => {
                return low.or(high.and(membership(row, *column, values.as_slice())));
            }
            Pred::IsNull { column } => {
                return low.or(high.and(Truth::from(is_null(row, *column))));
            }
        }
    }
    low
}

/// `column op value`
fn comparison(row: &Row, column: u32, op: Op, value: &Cell) -> Truth
    ensures { result ≡ comparison_of op (order_of (cell_at row.now column) value.now) }
{
    match at(row.cells(), column as usize) {
        Some(cell) => match order(cell, value) {
            Some(order) => Truth::from(holds(op, order)),
            None => Truth::Unknown,
        },
        None => Truth::Unknown,
    }
}

/// `column IN (values)`
fn membership(row: &Row, column: u32, values: &[Cell]) -> Truth
    ensures { result ≡ among_of (cell_at row.now column) values.now }
{
    match at(row.cells(), column as usize) {
        Some(cell) => among(cell, values),
        None => Truth::Unknown,
    }
}

/// `cell IN (values)`
fn among(cell: &Cell, values: &[Cell]) -> Truth
    ensures { result ≡ among_of cell.now values.now }
{
    if cell.is_null() {
        Truth::Unknown
    } else {
        Truth::from(equals_one(cell, values))
    }
}

/// Whether one of the values is equal to the cell.
fn equals_one(cell: &Cell, values: &[Cell]) -> bool
    ensures { result ≡ list_any (λ value. is_equal (order_of cell.now value)) values.now }
{
    values
        .iter()
        .any(|value| order(cell, value) == Some(Ordering::Equal))
}

/// `column IS NULL`
fn is_null(row: &Row, column: u32) -> bool
    ensures { result ≡ is_null_cell (cell_at row.now column) }
{
    match at(row.cells(), column as usize) {
        Some(cell) => cell.is_null(),
        None => true,
    }
}

/// How a value stands to another of its kind.
fn order(a: &Cell, b: &Cell) -> Option<Ordering>
    ensures { result ≡ order_of a.now b.now }
{
    match (a, b) {
        (Cell::Int(a), Cell::Int(b)) => Some(a.cmp(b)),
        (Cell::Bool(a), Cell::Bool(b)) => Some(a.cmp(b)),
        (Cell::Str(a), Cell::Str(b)) => Some(a.text().cmp(b.text())),
        (Cell::Date(a), Cell::Date(b)) => Some(a.cmp(b)),
        (Cell::Timestamp(a), Cell::Timestamp(b)) => Some(a.cmp(b)),
        _ => None,
    }
}

/// Whether a comparison holds between two values in this order.
fn holds(op: Op, order: Ordering) -> bool
    ensures { result ≡ holds_at op order }
{
    match op {
        Op::Eq => order == Ordering::Equal,
        Op::Ne => order != Ordering::Equal,
        Op::Lt => order == Ordering::Less,
        Op::Le => order != Ordering::Greater,
        Op::Gt => order == Ordering::Greater,
        Op::Ge => order != Ordering::Less,
    }
}
