//! What a reader was given when it began.

ghost use Rattle.std.specs.Prelude.{◌≡◌, ◌≤◌, length};
ghost use Rattle.std.specs.Arc.{arc_value};
ghost use Rattle.row_groups.specs.Places.{joined};
ghost use Rattle.read_cursor.specs.Lease.{IsReadable, IsLease};

use column_types::{Fields, Pred};
use row_groups::Spine;
use std::marker::Model;
use std::sync::Arc;

/// The rows at the positions from `lo` up to `hi` of a spine, with a restriction and the chosen columns.
#[derive(Drop)]
pub struct Lease {
    spine: Arc<Spine>,
    lo: u64,
    hi: u64,
    roots: u32,
    pred: Arc<Pred>,
    fields: Arc<Fields>,
}

impl Model for Lease {
    ghost use Rattle.std.specs.Arc.{arc_value};
    ghost use Rattle.std.specs.Coded.{codes};
    ghost use Rattle.column_types.specs.contracts.predicate.Pred as pred_code;
    ghost use Rattle.read_cursor.specs.Lease.{Leased, IsLease};

    ghost Value = { Leased };

    ghost coded = { Prim.hlevel (codes, pred_code.the_row.coded) };

    ghost view = { λ l. record { groups = arc_value l.spine; lo = l.lo; hi = l.hi; roots = l.roots; pred = arc_value l.pred; fields = arc_value l.fields } };

    ghost invariant = { λ l. IsLease (record { groups = arc_value l.spine; lo = l.lo; hi = l.hi; roots = l.roots; pred = arc_value l.pred; fields = arc_value l.fields }) };
}

impl Lease {
    /// A lease of these positions, where `lo` is at most `hi`, `hi` at most the number of the spine's rows, and where for a
    /// schema that each of its rows fits the restriction is typed and the fields are made. `roots` is the session's number
    /// of roots.
    pub fn of(
        spine: Arc<Spine>,
        lo: u64,
        hi: u64,
        roots: u32,
        pred: Arc<Pred>,
        fields: Arc<Fields>,
    ) -> Lease
        requires rises { lo ≤ hi }
        requires within { hi ≤ length (joined (arc_value spine)) }
        requires readable { IsReadable (joined (arc_value spine)) (arc_value pred) (arc_value fields) }
        ensures { result ≡ record { groups = arc_value spine; lo = lo; hi = hi; roots = roots; pred = arc_value pred; fields = arc_value fields } }
    {
        Lease {
            spine,
            lo,
            hi,
            roots,
            pred,
            fields,
        }
    }

    /// The groups of rows.
    pub fn spine(&self) -> &Spine
        ensures spine { result.now ≡ self.now.groups }
        ensures lease { IsLease self.now }
    {
        &self.spine
    }

    /// The first position.
    pub fn lo(&self) -> u64
        ensures { result ≡ self.now.lo }
    {
        self.lo
    }

    /// The position behind the last one.
    pub fn hi(&self) -> u64
        ensures { result ≡ self.now.hi }
    {
        self.hi
    }

    /// The session's number of roots.
    pub fn roots(&self) -> u32
        ensures { result ≡ self.now.roots }
    {
        self.roots
    }

    /// The restriction.
    pub fn pred(&self) -> &Pred
        ensures { result.now ≡ self.now.pred }
    {
        &self.pred
    }

    /// The chosen columns.
    pub fn fields(&self) -> &Fields
        ensures { result.now ≡ self.now.fields }
    {
        &self.fields
    }
}
