ghost use Rattle.std.specs.Prelude.{◌≡◌, ◌≤◌, ◌++◌, [], ◌≢◌, ◌↔◌, drop, length, vec_len, IfOk, OnOk, OnErr, IsTrue};
ghost use Rattle.grpc_frame.specs.Part.{part_of};
ghost use Rattle.grpc_frame.specs.Messages.{Takes, IsInside};

use crate::frame::PREFIX_LEN;
use crate::front::{Front, ends_inside, front_of};
use crate::part::Part;
use crate::started::{Started, fill, make_room, missing, start};
use outside::{Blob, Memory};
use std::alloc::Global;
use std::marker::Model;

/// Reads the messages of one body, which comes in any pieces.
///
/// Contracts see the limit and the bytes that are held: those fed and not yet given as a message.
///
/// A message that lies whole in what was fed is copied once more as it is given. One that comes in
/// more pieces is gathered in a place of its own, whose room grows with what has come, and is given
/// without a copy. No other byte is moved more often than once for each byte given.
#[derive(Drop)]
pub struct Deframer {
    limit: u32,
    /// The message that the held bytes begin with, where it came in pieces.
    started: Option<Started>,
    /// What was fed behind it.
    bytes: Vec<u8>,
    /// How many of `bytes`, from the front, were given already.
    given: usize,
}

impl Model for Deframer {
    ghost use Rattle.std.specs.Prelude.{◌≤◌, ◌<◌, ◌^◌, ◌++◌, drop, vec_len};
    ghost use Rattle.grpc_frame.specs.Held.{Held};
    ghost use Rattle.grpc_frame.specs.Started.{started_bytes, IsStarted};

    ghost Value = { Held };

    ghost view = { λ d. record { limit = d.limit; bytes = started_bytes d.started ++ drop d.given d.bytes.items } };

    ghost invariant = { λ d. (d.limit < 2 ^ 32) × (d.given ≤ vec_len d.bytes)
        × IsStarted d.limit d.started (drop d.given d.bytes.items) };
}

impl Deframer {
    /// A deframer of a body of which no byte has come.
    ///
    /// `limit` is the length of the longest message that is given, in bytes.
    pub fn new(alloc: Global, limit: u32) -> Deframer
        ensures { result ≡ record { limit = limit; bytes = [] } }
    {
        Deframer {
            limit,
            started: None,
            bytes: Vec::new(alloc),
            given: 0,
        }
    }

    /// Takes the next bytes of the body. After `Memory` none of them was taken.
    pub fn feed(&mut self, _alloc: Global, bytes: &[u8]) -> Result<(), Memory>
        ensures limit { self.new.limit ≡ self.old.limit }
        ensures fed { OnOk result (self.new.bytes ≡ self.old.bytes ++ bytes.now) }
        ensures unchanged { OnErr result (self.new.bytes ≡ self.old.bytes) }
    {
        let taken = missing(&self.started).min(bytes.len());
        make_room(&mut self.started, taken)?;
        append(&mut self.bytes, &mut self.given, &bytes[taken..])?;
        fill(&mut self.started, &bytes[..taken]);
        Ok(())
    }

    /// What the bytes held begin with. A message is taken from them; after every other answer, and
    /// after `Memory`, they are as before, so `Compressed` and `TooLong` are answered from then on.
    pub fn next(&mut self, alloc: Global) -> Result<Part, Memory>
        ensures limit { self.new.limit ≡ self.old.limit }
        ensures part { IfOk result (λ part. part ≡ part_of self.old.limit self.old.bytes) }
        ensures takes { IfOk result (λ part. Takes self.old.limit self.old.bytes self.new.bytes part) }
        ensures unchanged { OnErr result (self.new.bytes ≡ self.old.bytes) }
    {
        if missing(&self.started) > 0 {
            return Ok(Part::More);
        }
        if let Some(message) = self.started.take() {
            return Ok(Part::Message(Blob::from_vec(message.bytes)));
        }
        let held = behind(&self.bytes, self.given);
        match front_of(self.limit, held) {
            Front::Whole { len } => {
                let end = PREFIX_LEN + len;
                let message = Blob::of(alloc, &held[PREFIX_LEN..end])?;
                self.given += end;
                Ok(Part::Message(message))
            }
            Front::Unfinished { len } => {
                self.started = Some(start(alloc, len, &held[PREFIX_LEN..])?);
                self.bytes.clear();
                self.given = 0;
                Ok(Part::More)
            }
            Front::More => Ok(Part::More),
            Front::Compressed { flag } => Ok(Part::Compressed { flag }),
            Front::TooLong { len } => Ok(Part::TooLong { len }),
        }
    }

    /// Whether bytes of an unfinished message are held.
    ///
    /// Where `next` answers `More`, these are all bytes that are held.
    pub fn inside(&self) -> bool
        ensures inside { IsTrue result ↔ IsInside self.now.limit self.now.bytes }
        ensures after_more { part_of self.now.limit self.now.bytes ≡ Part.More → (IsTrue result ↔ (self.now.bytes ≢ [])) }
    {
        if missing(&self.started) > 0 {
            return true;
        }
        ends_inside(self.limit, behind(&self.bytes, self.given))
    }
}

/// The bytes that were not given.
fn behind(bytes: &[u8], given: usize) -> &[u8]
    requires { given ≤ length bytes.now }
    ensures { result.now ≡ drop given bytes.now }
{
    &bytes[given..]
}

/// Adds `piece` to the bytes, unless memory is wanting.
fn append(bytes: &mut Vec<u8>, given: &mut usize, piece: &[u8]) -> Result<(), Memory>
    requires { given.old ≤ vec_len bytes.old }
    ensures within { given.new ≤ vec_len bytes.new }
    ensures ok { OnOk result (drop given.new bytes.new.items ≡ drop given.old bytes.old.items ++ piece.now) }
    ensures err { OnErr result (drop given.new bytes.new.items ≡ drop given.old bytes.old.items) }
{
    discard(bytes, given);
    bytes.extend_from_slice(piece)?;
    Ok(())
}

/// Discards the bytes that were given where they are at least as many as the rest. So each byte
/// that is moved is paid by one that was given since, and at most half of the buffer is waste.
fn discard(bytes: &mut Vec<u8>, given: &mut usize)
    requires { given.old ≤ vec_len bytes.old }
    ensures within { given.new ≤ vec_len bytes.new }
    ensures same { drop given.new bytes.new.items ≡ drop given.old bytes.old.items }
{
    let rest = bytes.len() - *given;
    if rest <= *given {
        bytes.copy_within(*given.., 0);
        bytes.truncate(rest);
        *given = 0;
    }
}
