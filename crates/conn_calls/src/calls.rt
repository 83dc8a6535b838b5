//! The calls that go on.

ghost use Rattle.std.specs.Prelude.{◌≡◌, ℕ, nat_eq, None, Some, OnOk, if◌then◌else◌};
ghost use Rattle.conn_calls.specs.Calls.{kept_in};

use append_calls::AppendCall;
use conn_requests::Call;
use indexmap::IndexMap;
use outside::Memory;
use std::alloc::Global;
use std::marker::Model;

/// A call that goes on: what its body was so far, and what its messages have named.
#[derive(Drop)]
pub(crate) struct GoingCall {
    pub(crate) call: Call,
    pub(crate) append: AppendCall,
}

impl Model for GoingCall {
    ghost use Rattle.conn_service.specs.Going.{Kept};

    ghost Value = { Kept };

    ghost view = { λ c. record { call = record { body = c.call.body; named = c.append }; begun = c.call.begun } };
}

/// The calls of a connection that go on, by stream.
#[derive(Drop)]
pub struct Calls {
    pub(crate) going: IndexMap<u32, GoingCall>,
}

impl Model for Calls {
    ghost use Rattle.conn_calls.specs.Calls.{KeptCalls};

    ghost Value = { KeptCalls };

    ghost view = { λ calls. calls.going.entries };
}

impl Calls {
    /// None.
    pub fn new(alloc: Global) -> Calls
        ensures { (id : ℕ) → kept_in result id ≡ None }
    {
        Calls {
            going: IndexMap::new(alloc),
        }
    }

    /// Takes out the call that goes on on a stream.
    pub(crate) fn take(&mut self, id: u32) -> Option<GoingCall>
        ensures call { result ≡ kept_in self.old id }
        ensures others { (other : ℕ) → kept_in self.new other ≡ (if nat_eq id other then None else kept_in self.old other) }
    {
        self.going.swap_remove(&id)
    }

    /// Puts in the call that goes on on a stream.
    pub(crate) fn put(&mut self, id: u32, going: GoingCall) -> Result<(), Memory>
        ensures { OnOk result ((other : ℕ) → kept_in self.new other ≡ (if nat_eq id other then Some going else kept_in self.old other)) }
    {
        self.going.insert(id, going)?;
        Ok(())
    }
}
