//! How many rows were visible at a moment.

ghost use Rattle.std.specs.Prelude.{◌≡◌, ◌+◌, ◌<◌, ◌≤◌, ◌≤ℤ◌, ℤ, int_le, [], ◌∷◌, ◌++◌, length, All, OnOk, OnErr, if◌then◌else◌};
ghost use Rattle.table_model.specs.declared.entries.Entry.{Entry};
ghost use Rattle.table_model.specs.History.{History};
ghost use Rattle.table_model.specs.Visible.{visible_of};
ghost use Rattle.read_sessions.specs.Snapshots.{visible_at, IsPast, Tells, IsNext};

use outside::Memory;
use std::alloc::Global;
use std::marker::Model;

/// So many rows were visible from a moment on.
#[derive(Clone, Copy, Debug, PartialEq, Eq)]
pub struct Snapshot {
    /// In microseconds since 1970-01-01.
    pub moment: i64,
    /// How many rows were visible.
    pub visible: u64,
}

/// Snapshots in the order of their moments. Contracts see their list, and for how many more there is room.
#[derive(Drop)]
pub struct Snapshots {
    list: Vec<Snapshot>,
}

impl Model for Snapshots {
    ghost use Rattle.std.specs.Prelude.{◌-◌};
    ghost use Rattle.std.specs.Vec.{vec_len, vec_capacity};
    ghost use Rattle.read_sessions.specs.Snapshots.{Kept, Rise};

    ghost Value = { Kept };

    ghost view = { λ s. record { list = s.list.items; room = vec_capacity s.list - vec_len s.list } };

    ghost invariant = { λ s. Rise s.list.items };
}

impl Snapshots {
    /// No row was visible at any moment.
    pub fn new(alloc: Global) -> Snapshots
        ensures empty { result.list ≡ [] }
        ensures tells { Tells result.list [] }
    {
        Snapshots {
            list: Vec::new(alloc),
        }
    }

    /// How many rows were visible at a moment, in microseconds since 1970-01-01: as many as the last snapshot says that is
    /// not later, and none where each is later.
    pub fn visible_by(&self, moment: i64) -> u64
        ensures { result ≡ visible_at self.now.list moment }
    {
        let count = self
            .list
            .as_slice()
            .partition_point(|snapshot| snapshot.moment <= moment);
        if count == 0 {
            return 0;
        }
        self.list[count - 1].visible
    }

    /// Makes room for one snapshot more.
    pub fn reserve(&mut self) -> Result<(), Memory>
        ensures same { self.new.list ≡ self.old.list }
        ensures room { OnOk result (0 < self.new.room) }
    {
        self.list.reserve(1)?;
        Ok(())
    }

    /// Says that from a moment on, in microseconds since 1970-01-01, so many rows are visible. There has to be room, and no
    /// snapshot of a later moment.
    pub fn add(&mut self, moment: i64, visible: u64)
        requires room { 0 < self.old.room }
        requires past { IsPast moment self.old.list }
        ensures list { self.new.list ≡ self.old.list ++ record { moment = moment; visible = visible } ∷ [] }
        ensures tells { (history : History) (entry : Entry) → Tells self.old.list history → IsNext history entry → entry.moment ≡ moment
            → visible ≡ length (visible_of (history ++ entry ∷ [])) → Tells self.new.list (history ++ entry ∷ []) }
    {
        self.list.push_reserved(Snapshot { moment, visible });
    }
}
