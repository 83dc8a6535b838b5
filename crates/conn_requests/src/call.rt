//! A call that goes on.

ghost use Rattle.std.specs.Prelude.{◌≡◌, Bool, false, true, IfOk, OnOk, Ok};
ghost use Rattle.conn_requests.specs.Body.{kind_of, asks_of, body_after};
ghost use Rattle.conn_requests.specs.Held.{held_in};

use crate::asks::Ask;
use crate::body::hear_rest;
use crate::codings::is_coded;
use crate::kinds::{Kind, Sole};
use crate::messages::hear_messages;
use grpc_frame::{Deframer, MESSAGE_LIMIT};
use grpc_meta::{MetaFault, Method, method_of};
use hpack_blocks::Field;
use outside::Memory;
use std::alloc::Global;
use std::marker::Model;

/// A call that goes on: what has come of its body, and whether HEADERS were given on its stream.
///
/// Of the messages of a call that wants one, the first is kept until a second comes, and none from then on.
#[derive(Drop)]
pub struct Call {
    kind: Kind,
    is_coded: bool,
    deframer: Deframer,
    begun: bool,
}

impl Model for Call {
    ghost use Rattle.std.specs.Prelude.{◌≡◌};
    ghost use Rattle.grpc_frame.specs.declared.limits.TheConstants.{MESSAGE_LIMIT};
    ghost use Rattle.conn_requests.specs.Held.{Held};

    ghost Value = { Held };

    ghost view = { λ c. record { body = record { kind = c.kind; is_coded = c.is_coded; rest = c.deframer.bytes }; begun = c.begun } };

    ghost invariant = { λ c. c.deframer.limit ≡ MESSAGE_LIMIT };
}

/// The kind of the calls of a method.
fn kind_of(method: Method) -> Kind
    ensures { result ≡ kind_of method }
{
    match method {
        Method::AppendRows => Kind::Appending,
        other => Kind::Collecting(other, Sole::Empty),
    }
}

impl Call {
    /// The call that a request's header fields open, on which nothing was given, or why they open none.
    pub fn open(alloc: Global, fields: &[Field]) -> Result<Call, MetaFault>
        ensures { result ≡ held_in fields.now }
    {
        let method = method_of(fields)?;
        Ok(Call {
            kind: kind_of(method),
            is_coded: is_coded(fields),
            deframer: Deframer::new(alloc, MESSAGE_LIMIT),
            begun: false,
        })
    }

    /// Whether HEADERS were given on the stream.
    pub fn has_begun(&self) -> bool
        ensures { result ≡ self.now.begun }
    {
        self.begun
    }

    /// HEADERS were given on the stream.
    pub fn begin(&mut self)
        ensures { self.new ≡ record self.old { begun = true } }
    {
        self.begun = true;
    }

    /// Takes bytes of the body, with which the client ends it where `ended`, and gives what they ask, in its order.
    ///
    /// Nothing of a call counts behind the first that ends it. Where the client has ended the body, the last does, so
    /// what the call then holds is not said; after `Memory` neither.
    pub fn hear(&mut self, alloc: Global, bytes: &[u8], ended: bool) -> Result<Vec<Ask>, Memory>
        ensures asks { IfOk result (λ asks. asks.items ≡ asks_of self.old.body bytes.now ended) }
        ensures body { OnOk result (ended ≡ false → self.new.body ≡ body_after self.old.body bytes.now) }
        ensures begun { self.new.begun ≡ self.old.begun }
    {
        self.deframer.feed(alloc, bytes)?;
        let mut asks = Vec::new(alloc);
        let part = hear_messages(alloc, &mut self.deframer, &mut self.kind, &mut asks)?;
        let is_inside = self.deframer.inside();
        hear_rest(
            &mut asks,
            &mut self.kind,
            self.is_coded,
            &part,
            is_inside,
            ended,
        )?;
        Ok(asks)
    }
}
