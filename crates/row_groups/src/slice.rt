//! Rows of a shared list.

ghost use Rattle.std.specs.Prelude.{◌≡◌, ◌<◌, ◌≤◌, ◌^◌, [], length, take, drop, IfOk, MatchOption};
ghost use Rattle.std.specs.Arc.{arc_value};

use column_types::Row;
use outside::Memory;
use sqlite_items::Items;
use std::marker::Model;
use std::sync::Arc;

/// Rows, which contracts see as the list of their lists of cells.
pub type Rows = Items<Row>;

/// Rows of a shared list, one behind another, at least one and fewer than 2^32. Contracts see the list of these rows.
#[derive(Drop)]
pub struct Slice {
    rows: Arc<Rows>,
    from: u32,
    len: u32,
}

impl Model for Slice {
    ghost use Rattle.std.specs.Prelude.{List, take, drop};
    ghost use Rattle.std.specs.Arc.{arc_value};
    ghost use Rattle.column_types.specs.declared.cell.Cell.{Cell};
    ghost use Rattle.row_groups.specs.Slices.{IsSlice};

    ghost Value = { List (List Cell) };

    ghost view = { λ s. take s.len (drop s.from (arc_value s.rows)) };

    ghost invariant = { λ s. IsSlice (arc_value s.rows) s.from s.len };
}

impl Slice {
    /// All rows of a list of fewer than 2^32. None exactly where it has none.
    pub fn whole(rows: Arc<Rows>) -> Option<Slice>
        requires { length (arc_value rows) < 2 ^ 32 }
        ensures { MatchOption result (arc_value rows ≡ []) (λ slice. slice ≡ arc_value rows) }
    {
        if rows.is_empty() {
            return None;
        }
        let len = rows.len() as u32;
        Some(Slice { rows, from: 0, len })
    }

    /// How many rows there are.
    pub fn len(&self) -> u32
        ensures value { result ≡ length self.now }
        ensures some { 0 < result }
    {
        self.len
    }

    /// The rows.
    pub fn rows(&self) -> &[Row]
        ensures { result.now ≡ self.now }
    {
        &self.rows.as_slice()[self.from as usize..(self.from + self.len) as usize]
    }

    /// The same rows. It copies nothing but the `Arc`, which can be refused.
    pub fn share(&self) -> Result<Slice, Memory>
        ensures { IfOk result (λ slice. slice ≡ self.now) }
    {
        Ok(Slice {
            rows: Arc::try_clone(&self.rows)?,
            from: self.from,
            len: self.len,
        })
    }

    /// The first rows, as many as `count` says. It copies nothing but the `Arc`, which can be refused.
    pub fn front(&self, count: u32) -> Result<Slice, Memory>
        requires some { 0 < count }
        requires within { count ≤ length self.now }
        ensures { IfOk result (λ slice. slice ≡ take count self.now) }
    {
        Ok(Slice {
            rows: Arc::try_clone(&self.rows)?,
            from: self.from,
            len: count,
        })
    }

    /// Leaves the rows behind the first `count`, of which there are some.
    pub fn skip(&mut self, count: u32)
        requires { count < length self.old }
        ensures { self.new ≡ drop count self.old }
    {
        self.from += count;
        self.len -= count;
    }
}
