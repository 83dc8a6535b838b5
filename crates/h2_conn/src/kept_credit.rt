//! The credit that is kept of streams on which many replies wait.

ghost use Rattle.std.specs.Prelude.{◌≡◌, [], ◌+◌, ◌≤◌, ◌^◌, ◌-◌, OnOk, OnErr, nat_eq, if◌then◌else◌, ℕ};
ghost use Rattle.h2_conn.specs.KeptCredit.{kept_on, KeptOnly, KeepsMore, greatest_increment};

use h2_record::limits::GREATEST_WINDOW;
use indexmap::IndexMap;
use outside::Memory;
use std::alloc::Global;
use std::marker::Model;

/// The kept credit, in bytes, by stream; a stream with none takes no place.
#[derive(Drop)]
pub(crate) struct KeptCredit {
    sums: IndexMap<u32, u32>,
}

impl Model for KeptCredit {
    ghost use Rattle.std.specs.Prelude.{List, ℕ, ◌≤◌};
    ghost use Rattle.h2_conn.specs.KeptCredit.{kept_on, greatest_increment};

    ghost Value = { List (ℕ × ℕ) };

    ghost view = { λ k. k.sums.entries };

    ghost invariant = { λ k. (id : ℕ) → kept_on k.sums.entries id ≤ greatest_increment };
}

impl KeptCredit {
    /// None. It can't be refused.
    pub(crate) fn new(alloc: Global) -> KeptCredit
        ensures { result ≡ [] }
    {
        KeptCredit {
            sums: IndexMap::new(alloc),
        }
    }

    /// What is kept of a stream.
    pub(crate) fn of(&self, id: u32) -> u32
        ensures value { result ≡ kept_on self.now id }
        ensures small { result ≤ greatest_increment }
    {
        match self.sums.get(&id) {
            Some(sum) => *sum,
            None => 0,
        }
    }

    /// Keeps `bytes` more of a stream. The sum is an increment, since it is no more than came on the stream. Where memory
    /// is refused, all is as it was.
    pub(crate) fn add(&mut self, id: u32, bytes: u32) -> Result<(), Memory>
        ensures ok { OnOk result (KeepsMore self.old self.new id (kept_on self.old id + bytes)) }
        ensures err { OnErr result (self.new ≡ self.old) }
    {
        match self.of(id).checked_add(bytes) {
            Some(sum) if sum <= GREATEST_WINDOW => {
                self.sums.insert(id, sum)?;
                Ok(())
            }
            _ => Ok(()),
        }
    }

    /// Keeps nothing of a stream any more.
    pub(crate) fn remove(&mut self, id: u32)
        ensures { KeptOnly self.old self.new id 0 }
    {
        self.sums.shift_remove(&id);
    }
}
