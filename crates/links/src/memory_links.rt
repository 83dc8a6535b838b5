//! A link in memory.

ghost use Rattle.std.specs.Prelude.{◌≡◌, ◌<◌, true, false, [], Some, length, drop, IsTrue, IsOk, if◌then◌else◌};
ghost use Rattle.links.specs.Link.{bytes_written, Reads, is_end, ReadCause, Writes, WriteCause, is_blocked, Waits};
ghost use Rattle.links.specs.Script.{is_link_script};
ghost use Rattle.links.specs.Memory.{ReadFollows, WriteFollows};

use super::link::{Link, LinkFailed, LinkRead, LinkWrite};
use super::scripts::{Finds, Script};
use super::traffic::Traffic;
use outside::Piece;
use std::alloc::Global;
use std::marker::Model;

/// A link in memory, which gives its input and takes bytes in the pieces of two scripts.
///
/// Each read uses one piece of the one and each write one of the other: it moves at most that many
/// bytes, isn't ready, or meets a fault. A used-up script gives all that is asked and there, and takes
/// all. Behind the end of the input each read answers `End`. The link keeps its log: a call that finds
/// no room for its entry meets a fault too.
#[derive(Drop)]
pub struct MemLink {
    traffic: Traffic,
    reads: Script,
    writes: Script,
    ended: bool,
    closed: bool,
    blocked: bool,
    count: u64,
}

impl Model for MemLink {
    ghost use Rattle.std.specs.Prelude.{◌≡◌, true, []};
    ghost use Rattle.links.specs.Memory.{LinkState};

    ghost Value = { LinkState };

    ghost view = { λ l. record {
      left = l.traffic.left;
      log = l.traffic.log;
      ended = l.ended;
      closed = l.closed;
      blocked = l.blocked;
      count = l.count;
      reads = l.reads;
      writes = l.writes;
    } };

    ghost invariant = { λ l. l.ended ≡ true → l.traffic.left ≡ [] };
}

impl MemLink {
    /// A link that gives `input`, with the scripts of its reads and of its writes, in which each `UpTo`
    /// is at least 1. It can't be refused.
    pub fn new(alloc: Global, input: Vec<u8>, reads: Vec<Piece>, writes: Vec<Piece>) -> MemLink
        requires reads { IsTrue (is_link_script reads.items) }
        requires writes { IsTrue (is_link_script writes.items) }
        ensures { result ≡ record {
          left = input.items;
          log = [];
          ended = false;
          closed = false;
          blocked = false;
          count = 0;
          reads = reads.items;
          writes = writes.items;
        } }
    {
        MemLink {
            traffic: Traffic::new(alloc, input),
            reads: Script::new(reads),
            writes: Script::new(writes),
            ended: false,
            closed: false,
            blocked: false,
            count: 0,
        }
    }

    /// The bytes written so far.
    pub fn written(&self) -> &[u8]
        ensures { result.now ≡ bytes_written self.now.log }
    {
        self.traffic.written()
    }
}

impl Link for MemLink {
    ghost log = { λ l. Some l.log };

    ghost left = { λ l. Some l.left };

    ghost ended = { λ l. l.ended };

    ghost closed = { λ l. l.closed };

    ghost blocked = { λ l. l.blocked };

    ghost faults = { λ l. l.count };

    fn read(&mut self, into: &mut [u8]) -> LinkRead
        requires some { 0 < length into.old }
        requires open { self.old.closed ≡ false }
        ensures reads { Reads result into.new (Some self.old.log) (Some self.new.log) (Some self.old.left) (Some self.new.left) }
        ensures ended { self.new.ended ≡ is_end result }
        ensures stays_ended { self.old.ended ≡ true → result ≡ LinkRead.End }
        ensures open { self.new.closed ≡ false }
        ensures ready { self.new.blocked ≡ false }
        ensures cause { ReadCause self.old.count self.new.count result }
        ensures follows { ReadFollows self.old result (length into.old) }
        ensures turn { self.new.reads ≡ (if self.old.ended then self.old.reads else drop 1 self.old.reads) }
        ensures writes { self.new.writes ≡ self.old.writes }
    {
        self.blocked = false;
        if self.ended {
            return LinkRead::End;
        }
        match self.reads.next_finds(into.len().min(self.traffic.left())) {
            Finds::Room(0) => {
                self.ended = true;
                LinkRead::End
            }
            Finds::Room(n) if self.traffic.read(n, into) => LinkRead::Got(n),
            Finds::NotReady => LinkRead::NotReady,
            Finds::Room(_) | Finds::Fault => {
                self.count = self.count.saturating_add(1);
                LinkRead::Failed
            }
        }
    }

    fn write(&mut self, from: &[u8]) -> LinkWrite
        requires some { 0 < length from.now }
        requires open { self.old.closed ≡ false }
        ensures writes { Writes result from.now (Some self.old.log) (Some self.new.log) }
        ensures left { Some self.new.left ≡ Some self.old.left }
        ensures ended { self.new.ended ≡ self.old.ended }
        ensures open { self.new.closed ≡ false }
        ensures blocked { self.new.blocked ≡ is_blocked result }
        ensures cause { WriteCause self.old.count self.new.count result }
        ensures follows { WriteFollows self.old result (length from.now) }
        ensures turn { self.new.writes ≡ drop 1 self.old.writes }
        ensures reads { self.new.reads ≡ self.old.reads }
    {
        let finds = self.writes.next_finds(from.len());
        self.blocked = matches!(finds, Finds::NotReady);
        match finds {
            Finds::Room(n) if self.traffic.write(&from[..n]) => LinkWrite::Took(n),
            Finds::NotReady => LinkWrite::NotReady,
            Finds::Room(_) | Finds::Fault => {
                self.count = self.count.saturating_add(1);
                LinkWrite::Failed
            }
        }
    }

    fn wait(&mut self, _want_write: bool) -> Result<(), LinkFailed>
        requires { self.old.closed ≡ false }
        ensures waits { Waits result self.old.blocked (Some self.old.log) (Some self.new.log) self.old.count self.new.count }
        ensures left { Some self.new.left ≡ Some self.old.left }
        ensures ended { self.new.ended ≡ self.old.ended }
        ensures open { self.new.closed ≡ false }
        ensures ready { self.new.blocked ≡ false }
        ensures no_entry { self.old.blocked ≡ true → IsOk result }
        ensures reads { self.new.reads ≡ self.old.reads }
        ensures writes { self.new.writes ≡ self.old.writes }
    {
        let adds_entry = !self.blocked;
        self.blocked = false;
        if adds_entry && !self.traffic.wait() {
            self.count = self.count.saturating_add(1);
            return Err(LinkFailed);
        }
        Ok(())
    }

    fn close(&mut self)
        ensures { self.new ≡ record {
          left = self.old.left;
          log = self.old.log;
          ended = self.old.ended;
          closed = true;
          blocked = false;
          count = self.old.count;
          reads = self.old.reads;
          writes = self.old.writes;
        } }
    {
        self.closed = true;
        self.blocked = false;
    }
}
