//! What holds of the rows of all intervals.

ghost use Rattle.std.specs.Prelude.{◌≡◌, ◌≤◌, ℕ, List, ◌++◌, length, drop};
ghost use Rattle.column_types.specs.declared.cell.Cell.{Cell};
ghost use Rattle.column_types.specs.declared.predicate.Pred.{Pred};
ghost use Rattle.row_groups.specs.Places.{joined};
ghost use Rattle.read_cursor.specs.Lease.{Leased, shown};
ghost use Rattle.read_cursor.specs.Reading.{rows_left};

/// Where an interval is cut in two, its rows are those of the left part and then those of the right part (`parts`). Rows
/// that come behind the interval change nothing in it (`later`). What a cursor of a lease is to give from an offset on is
/// what stands behind that many rows of the lease's interval (`offset`).
pub fn intervals_keep_their_rows()
    ensures parts { (pred : Pred) (fields : List ℕ) (lo cut hi : ℕ) (rows : List (List Cell)) → lo ≤ cut → cut ≤ hi →
        shown pred fields lo cut rows ++ shown pred fields cut hi rows ≡ shown pred fields lo hi rows }
    ensures later { (pred : Pred) (fields : List ℕ) (lo hi : ℕ) (rows more : List (List Cell)) → lo ≤ hi → hi ≤ length rows →
        shown pred fields lo hi (rows ++ more) ≡ shown pred fields lo hi rows }
    ensures offset { (lease : Leased) (at : ℕ) →
        rows_left (record { lease = lease; at = at }) ≡ drop at (shown lease.pred lease.fields lease.lo lease.hi (joined lease.groups)) }
{}
