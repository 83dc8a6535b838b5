//! The rows that the writers send.

ghost use Rattle.std.specs.Prelude.{◌≡◌, ◌<◌, ◌≤◌, IfOk};
ghost use Rattle.drill.specs.Rows.{batch_length, batch_of, rows_before, row_of, tag_of};

use column_types::{Cell, Row};
use outside::{Memory, Text};
use std::alloc::Global;

/// The ids of one writer are below those of the next by this much.
const IDS_APART: u32 = 1_000_000;

/// How many rows a batch has.
pub(crate) fn batch_length(writer: u32, batch: u32) -> u32
    requires writer { writer < 4 }
    requires batch { batch < 10000 }
    ensures { result ≡ batch_length writer batch }
{
    1 + (7 * writer + 5 * batch) % 8
}

/// How many rows a writer's batches before this one have.
#[tactic(auto, using(crate::proofs::RowLemmas::rows_few, crate::proofs::RowLemmas::rows_more))]
fn rows_before(writer: u32, batch: u32) -> u32
    requires writer { writer < 4 }
    requires batch { batch < 10000 }
    ensures { result ≡ rows_before writer batch }
{
    let mut count = 0;
    for before in 0..batch {
        count += batch_length(writer, before);
    }
    count
}

/// The tag of a row: `even`, or NULL.
fn tag_of(alloc: Global, id: u32) -> Result<Cell, Memory>
    ensures { IfOk result (λ tag. tag ≡ tag_of id) }
{
    if id % 2 == 0 {
        Ok(Cell::Str(Text::of(alloc, "even")?))
    } else {
        Ok(Cell::Null)
    }
}

/// A writer's row of this number.
fn row_of(alloc: Global, writer: u32, number: u32) -> Result<Row, Memory>
    requires writer { writer < 4 }
    requires number { number < 100000 }
    ensures { IfOk result (λ row. row ≡ row_of writer number) }
{
    let id = IDS_APART * writer + number;
    let mut cells = Vec::with_capacity(alloc, 2)?;
    cells.push(Cell::Int(i64::from(id)))?;
    cells.push(tag_of(alloc, id)?)?;
    Ok(Row::from_vec(cells))
}

/// The rows of a batch, of which the first has this number.
#[tactic(auto, using(crate::proofs::RowLemmas::rows_few))]
pub(crate) fn rows_from(
    alloc: Global,
    writer: u32,
    batch: u32,
    first: u32,
) -> Result<Vec<Row>, Memory>
    requires writer { writer < 4 }
    requires batch { batch < 10000 }
    requires first { first ≡ rows_before writer batch }
    ensures { IfOk result (λ rows. rows.items ≡ batch_of writer batch) }
{
    let count = batch_length(writer, batch);
    let mut rows = Vec::with_capacity(alloc, count as usize)?;
    for place in 0..count {
        rows.push(row_of(alloc, writer, first + place)?)?;
    }
    Ok(rows)
}

/// The rows of a batch of a writer in the drill of `n`: n is 1 to 10,000, `writer` below 4, and `batch` below n.
///
/// Batch b of writer w has `1 + (7w + 5b) mod 8` rows, and the rows of its batches are numbered on, from 0. Row i has
/// the id `1000000w + i`, and the tag `even` where that is even, else NULL.
pub fn rows_of(alloc: Global, n: u32, writer: u32, batch: u32) -> Result<Vec<Row>, Memory>
    requires n { n ≤ 10000 }
    requires writer { writer < 4 }
    requires batch { batch < n }
    ensures { IfOk result (λ rows. rows.items ≡ batch_of writer batch) }
{
    let _later = n - batch;
    rows_from(alloc, writer, batch, rows_before(writer, batch))
}
