//! How many entries each caller has.

ghost use Rattle.std.specs.Prelude.{◌≡◌, ◌+◌, ◌<◌, ◌≤◌, ◌^◌, ℕ, ◌==◌, OnOk, if◌then◌else◌};
ghost use Rattle.std.specs.HashMap.{spare};
ghost use Rattle.table_engine.specs.Callers.{count_of};

use outside::Memory;
use std::alloc::Global;
use std::collections::HashMap;

/// The number of entries of each caller; none is kept of a caller without one.
#[derive(Drop)]
pub(crate) struct Callers {
    counts: HashMap<u32, u32>,
}

impl Callers {
    /// No entry of any caller.
    pub(crate) fn new(alloc: Global) -> Callers
        ensures { (caller : ℕ) → count_of result caller ≡ 0 }
    {
        Callers {
            counts: HashMap::new(alloc),
        }
    }

    /// The entries of this caller.
    pub(crate) fn count(&self, caller: u32) -> u32
        ensures { result ≡ count_of self.now caller }
    {
        self.counts.get(&caller).copied().unwrap_or(0)
    }

    /// Makes room for one caller more.
    pub(crate) fn reserve(&mut self) -> Result<(), Memory>
        ensures counts { (caller : ℕ) → count_of self.new caller ≡ count_of self.old caller }
        ensures room { OnOk result (0 < spare self.new.counts) }
    {
        self.counts.reserve(1)?;
        Ok(())
    }

    /// Counts an entry of this caller. There has to be room.
    pub(crate) fn add(&mut self, caller: u32)
        requires room { 0 < spare self.old.counts }
        requires few { count_of self.old caller + 1 < 2 ^ 32 }
        ensures { (other : ℕ) → count_of self.new other ≡ count_of self.old other + (if caller == other then 1 else 0) }
    {
        let count = self.count(caller) + 1;
        if self.counts.insert(caller, count).is_err() {
            unreachable!()
        }
    }
}
