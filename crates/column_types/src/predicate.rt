//! A condition on a row.

ghost use Rattle.std.specs.Prelude.{◌≡◌, IfOk};
ghost use Rattle.column_types.specs.Above.{under};

use crate::cell::{Cell, Cells, copies};
use outside::Memory;
use sqlite_items::{Boxed, Items};
use std::alloc::Global;

/// How two values are compared.
#[derive(Clone, Copy, Debug, PartialEq, Eq)]
pub enum Op {
    /// `=`
    Eq,
    /// `!=` or `<>`
    Ne,
    /// `<`
    Lt,
    /// `<=`
    Le,
    /// `>`
    Gt,
    /// `>=`
    Ge,
}

/// A condition on a row. Columns are numbered from 0.
pub enum Pred {
    /// Keeps each row.
    All,
    /// `column op value`
    Compare { column: u32, op: Op, value: Cell },
    /// `column IN (values)`
    Among { column: u32, values: Cells },
    /// `column IS NULL`
    IsNull { column: u32 },
    /// `left AND right`
    And(Boxed<Pred>, Boxed<Pred>),
    /// `left OR right`
    Or(Boxed<Pred>, Boxed<Pred>),
    /// `NOT inner`
    Not(Boxed<Pred>),
}

impl Pred {
    /// A copy. It goes down a chain that groups from the left by a loop, and recurses into right sides alone.
    pub fn copy(&self, alloc: Global) -> Result<Pred, Memory>
        ensures { IfOk result (λ pred. pred ≡ self.now) }
    {
        let mut above = Vec::new(alloc);
        let mut here = self;
        let leaf = loop {
            match here {
                Pred::And(left, right) => {
                    above.push(Above::And(right.get().copy(alloc)?))?;
                    here = left.get();
                }
                Pred::Or(left, right) => {
                    above.push(Above::Or(right.get().copy(alloc)?))?;
                    here = left.get();
                }
                Pred::Not(inner) => {
                    above.push(Above::Not)?;
                    here = inner.get();
                }
                Pred::All => break Pred::All,
                Pred::IsNull { column } => break Pred::IsNull { column: *column },
                Pred::Compare { column, op, value } => {
                    break Pred::Compare {
                        column: *column,
                        op: *op,
                        value: value.copy(alloc)?,
                    };
                }
                Pred::Among { column, values } => {
                    break Pred::Among {
                        column: *column,
                        values: Items::from_vec(copies(alloc, values.as_slice())?),
                    };
                }
            }
        };
        rebuilt(alloc, above, leaf)
    }
}

/// What stands over the left side of a node: the node without that side.
#[derive(Drop)]
enum Above {
    And(Pred),
    Or(Pred),
    Not,
}

/// The predicate under all that stands above it, of which the last is the nearest.
fn rebuilt(alloc: Global, mut above: Vec<Above>, leaf: Pred) -> Result<Pred, Memory>
    ensures { IfOk result (λ pred. pred ≡ under above.items leaf) }
{
    let mut pred = leaf;
    while let Some(node) = above.pop() {
        let left = Boxed::new(alloc, pred)?;
        pred = match node {
            Above::And(right) => Pred::And(left, Boxed::new(alloc, right)?),
            Above::Or(right) => Pred::Or(left, Boxed::new(alloc, right)?),
            Above::Not => Pred::Not(left),
        };
    }
    Ok(pred)
}

impl Drop for Pred {
    /// Goes down a chain of AND, OR and NOT by a loop, since a chain that groups from the left may be long.
    fn drop(mut self) {
        loop {
            match self {
                Pred::All | Pred::IsNull { column: _ } => return,
                Pred::Compare {
                    column: _,
                    op: _,
                    value: _,
                } => return,
                Pred::Among {
                    column: _,
                    values: _,
                } => return,
                Pred::And(left, right) | Pred::Or(left, right) => {
                    let _right = right.into_inner();
                    self = left.into_inner();
                }
                Pred::Not(inner) => self = inner.into_inner(),
            }
        }
    }
}
