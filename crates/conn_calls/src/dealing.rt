//! The connection, and the answers that are given as its windows open.

ghost use Rattle.std.specs.Prelude.{◌≡◌, ℕ, nat_eq, is_some, List, ◌∷◌, None, Some, IfOk, OnOk, option_to_list, if◌then◌else◌};
ghost use Rattle.h2_frames.specs.Sound.{IsFrame};
ghost use Rattle.h2_record.specs.Record.{Record, In, Broken};
ghost use Rattle.h2_record.specs.Events.{events_of};
ghost use Rattle.h2_record.specs.Faults.{first_fault_of};
ghost use Rattle.conn_deferral.specs.Deferred.{Deals};
ghost use Rattle.conn_requests.specs.declared.asks.Ask.{Ask};
ghost use Rattle.conn_calls.specs.Dealing.{body_in, dealing_of, MarksOn};

use h2_conn::{Conn, Event};
use h2_frames::{Frame, H2Fault};
use indexmap::IndexMap;
use outside::Memory;
use rows_body::RowsBody;
use std::alloc::Global;
use std::marker::Model;

/// A connection, and the bodies of ReadRows calls that aren't wholly given to it, by stream.
#[derive(Drop)]
pub struct Dealing<'t> {
    /// The connection.
    pub conn: Conn,
    pub(crate) bodies: IndexMap<u32, RowsBody<'t>>,
}

impl<'t> Model for Dealing<'t> {
    ghost use Rattle.conn_calls.specs.Dealing.{Dealt};

    ghost Value = { Dealt };

    ghost view = { λ d. record { conn = d.conn; bodies = d.bodies.entries } };
}

impl<'t> Dealing<'t> {
    /// A connection of which nothing is left to give.
    pub fn new(alloc: Global, conn: Conn) -> Dealing<'t>
        ensures conn { result.conn ≡ conn }
        ensures none { (id : ℕ) → body_in result.bodies id ≡ None }
    {
        Dealing {
            conn,
            bodies: IndexMap::new(alloc),
        }
    }

    /// Takes the client's next frame, and answers what it tells. After a connection error it tells nothing more.
    pub(crate) fn take(&mut self, alloc: Global, frame: Frame) -> Result<Option<Event>, Memory>
        requires { IsFrame frame }
        ensures stands { OnOk result ((r : Record) → Deals (dealing_of self.old) r → Deals (dealing_of self.new) (In frame ∷ r)) }
        ensures events { IfOk result (λ event. (r : Record) → Deals (dealing_of self.old) r → option_to_list event ≡ events_of r frame) }
        ensures bodies { self.new.bodies ≡ self.old.bodies }
    {
        self.conn.take(alloc, frame)
    }

    /// The connection error that was met, if one was.
    pub(crate) fn first_fault(&self) -> Option<H2Fault>
        ensures { (r : Record) → Deals (dealing_of self.now) r → result ≡ first_fault_of r }
    {
        self.conn.first_fault()
    }

    /// In place of a frame came bytes that break a rule of framing: GOAWAY is to be written.
    pub fn break_off(&mut self, alloc: Global, fault: H2Fault) -> Result<(), Memory>
        ensures { OnOk result ((r : Record) → Deals (dealing_of self.old) r → Deals (dealing_of self.new) (Broken fault ∷ r)) }
    {
        self.conn.fault(alloc, fault)
    }

    /// The latest frame made a request whole.
    pub(crate) fn request_whole(&mut self)
        ensures { (ask : Ask) (asks : List Ask) → MarksOn (dealing_of self.old) (dealing_of self.new) (ask ∷ asks) }
    {
        self.conn.request_whole();
    }

    /// Whether something is left to give on a stream.
    pub(crate) fn has_body(&self, id: u32) -> bool
        ensures { result ≡ is_some (body_in self.now.bodies id) }
    {
        self.bodies.contains_key(&id)
    }

    /// Takes out the body of a stream, if there is one. The others keep their order.
    pub(crate) fn take_body(&mut self, id: u32) -> Option<RowsBody<'t>>
        ensures conn { self.new.conn ≡ self.old.conn }
        ensures body { result ≡ body_in self.old.bodies id }
        ensures others { (other : ℕ) → body_in self.new.bodies other ≡ (if nat_eq id other then None else body_in self.old.bodies other) }
    {
        self.bodies.shift_remove(&id)
    }

    /// Leaves the parts of a body to be given on a stream.
    pub(crate) fn leave(&mut self, id: u32, body: RowsBody<'t>) -> Result<(), Memory>
        ensures conn { self.new.conn ≡ self.old.conn }
        ensures bodies { OnOk result ((other : ℕ) → body_in self.new.bodies other ≡ (if nat_eq id other then Some body.entry else body_in self.old.bodies other)) }
    {
        self.bodies.insert(id, body)?;
        Ok(())
    }
}
