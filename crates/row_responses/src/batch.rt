//! The rows that one response takes.

ghost use Rattle.std.specs.Prelude.{◌≡◌, ◌≤◌, ◌∷◌, IfOk, OnErr};
ghost use Rattle.row_responses.specs.Batch.{Batches, HasNext, Steps, batch_from};
ghost use Rattle.row_responses.specs.Body.{IsOf};

use crate::limits::{MAX_RESPONSE_BYTES, MAX_RESPONSE_ROWS};
use avro_rows::push_chosen;
use column_types::Schema;
use outside::{Blob, Memory};
use read_cursor::{Cursor, Found};
use std::alloc::Global;

/// The next rows that one response takes.
#[derive(Drop)]
pub(crate) enum Batch {
    /// The data of `count` rows, of which there is one.
    Rows { written: Blob, count: u32 },
    /// All rows were given.
    End,
    /// The offset is beyond the number of matching rows, `matched`.
    PastEnd { matched: u64 },
}

/// What became of one more row.
enum Step {
    /// It was written.
    Written,
    /// It doesn't fit the response any more.
    Full,
    /// There is none.
    End,
    /// There is none, and the offset is beyond the number of matching rows, `matched`.
    PastEnd { matched: u64 },
}

/// Writes the next row behind the others of a response, and goes over it. Where there are others, it does so only if all
/// are then within [`MAX_RESPONSE_BYTES`].
fn write_next(
    schema: &Schema,
    cursor: &mut Cursor,
    written: &mut Vec<u8>,
    is_first: bool,
) -> Result<Step, Memory>
    requires { IsOf schema.now cursor.old.lease }
    ensures lease { cursor.new.lease ≡ cursor.old.lease }
    ensures steps { IfOk result (Steps schema.now is_first cursor.old cursor.new written.old.items written.new.items) }
    ensures wants { OnErr result (HasNext cursor.old) }
{
    let mark = cursor.mark();
    match cursor.next_place() {
        Found::Row(place) => {
            let before = written.len();
            push_chosen(written, schema, cursor.lease().fields(), cursor.row(place))?;
            if !is_first && written.len() > MAX_RESPONSE_BYTES {
                cursor.go_to(mark);
                written.truncate(before);
                return Ok(Step::Full);
            }
            Ok(Step::Written)
        }
        Found::End => Ok(Step::End),
        Found::PastEnd { matched } => Ok(Step::PastEnd { matched }),
    }
}

/// The data of so many rows, or the end where there is none.
fn batch_of(written: Vec<u8>, count: u32) -> Batch
    ensures { result ≡ batch_from written.items count }
{
    if count == 0 {
        return Batch::End;
    }
    Batch::Rows {
        written: Blob::from_vec(written),
        count,
    }
}

/// The next rows that one response takes, and goes over them.
pub(crate) fn next_batch(
    alloc: Global,
    schema: &Schema,
    cursor: &mut Cursor,
) -> Result<Batch, Memory>
    requires { IsOf schema.now cursor.old.lease }
    ensures lease { cursor.new.lease ≡ cursor.old.lease }
    ensures batches { IfOk result (Batches schema.now cursor.old cursor.new) }
    ensures wants { OnErr result (HasNext cursor.old) }
{
    let mut written = Vec::new(alloc);
    let mut count = 0;
    while count < MAX_RESPONSE_ROWS {
        match write_next(schema, cursor, &mut written, count == 0)? {
            Step::Written => count += 1,
            Step::Full | Step::End => return Ok(batch_of(written, count)),
            Step::PastEnd { matched } => return Ok(Batch::PastEnd { matched }),
        }
    }
    Ok(batch_of(written, count))
}
