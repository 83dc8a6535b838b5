//! A door in memory.

ghost use Rattle.std.specs.Prelude.{◌≡◌, ◌<◌, ◌+◌, true, false, [], ◌∷◌, ◌++◌, Some, IsTrue, MatchResult, length};
ghost use Rattle.std.specs.List.{list_all};
ghost use Rattle.outside.specs.Faults.{risen, Rose};
ghost use Rattle.doors.specs.Door.{Gives, out_after, shut_after, NextCause, ListenCause};
ghost use Rattle.doors.specs.Memory.{is_new, fails_next, next_of};

use super::door::{Accepted, Door, DoorFailed};
use links::MemLink;
use std::alloc::Global;
use std::marker::Model;
use std::mem;

/// A door in memory, which gives its links one after another and keeps those that are handed back.
///
/// Where no link is left it is closed. One call of `listen` or `next` may be chosen to fail. A link
/// handed back takes the room that a given link left, so no call takes memory.
#[derive(Drop)]
pub struct MemDoor {
    alloc: Global,
    // The links handed back, room for those that are out, and the links left.
    links: Vec<MemLink>,
    handed: usize,
    given: usize,
    shut: bool,
    calls: u64,
    fail_at: Option<u32>,
    count: u64,
}

impl Model for MemDoor {
    ghost use Rattle.std.specs.Prelude.{◌≡◌, ◌≤◌, ◌-◌, true, take, drop, vec_len, IsTrue};
    ghost use Rattle.std.specs.List.{list_all};
    ghost use Rattle.doors.specs.Memory.{DoorState, is_new};

    ghost Value = { DoorState };

    ghost view = { λ d. record {
      left = drop d.given d.links.items;
      handed = take d.handed d.links.items;
      out = d.given - d.handed;
      shut = d.shut;
      calls = d.calls;
      fail_at = d.fail_at;
      count = d.count;
    } };

    ghost invariant = { λ d. (d.handed ≤ d.given)
        × (d.given ≤ vec_len d.links)
        × IsTrue (list_all is_new (drop d.given d.links.items))
        × (d.shut ≡ true → d.given ≡ vec_len d.links) };
}

impl MemDoor {
    /// A door that gives these links, none of which is closed or has anything in its log. The call
    /// with the number `fail_at` fails, where the calls of `listen` and `next` are counted together
    /// from 1. It takes no memory.
    pub fn new(alloc: Global, links: Vec<MemLink>, fail_at: Option<u32>) -> MemDoor
        requires { IsTrue (list_all is_new links.items) }
        ensures { result ≡ record {
          left = links.items;
          handed = [];
          out = 0;
          shut = false;
          calls = 0;
          fail_at = fail_at;
          count = 0;
        } }
    {
        MemDoor {
            alloc,
            links,
            handed: 0,
            given: 0,
            shut: false,
            calls: 0,
            fail_at,
            count: 0,
        }
    }

    /// The links handed back so far, in order.
    pub fn handed(&self) -> &[MemLink]
        ensures { result.now ≡ self.now.handed }
    {
        &self.links[..self.handed]
    }

    // Counts a call, and tells whether it is the one that fails, which is a fault.
    fn meets_fault(&mut self) -> bool
        ensures fails { result ≡ fails_next self.old }
        ensures left { self.new.left ≡ self.old.left }
        ensures handed { self.new.handed ≡ self.old.handed }
        ensures out { self.new.out ≡ self.old.out }
        ensures shut { self.new.shut ≡ self.old.shut }
        ensures calls { self.new.calls ≡ risen self.old.calls }
        ensures fail_at { self.new.fail_at ≡ self.old.fail_at }
        ensures keeps { result ≡ false → self.new.count ≡ self.old.count }
        ensures rises { result ≡ true → Rose self.old.count self.new.count }
    {
        self.calls = self.calls.saturating_add(1);
        let fails = match self.fail_at {
            Some(number) => number as u64 == self.calls,
            None => false,
        };
        if fails {
            self.count = self.count.saturating_add(1);
        }
        fails
    }

    // Gives the first link left, in whose place an empty one stands from then on.
    fn take_first(&mut self) -> MemLink
        requires { 0 < length self.old.left }
        ensures first { self.old.left ≡ result ∷ self.new.left }
        ensures is_new { is_new result ≡ true }
        ensures handed { self.new.handed ≡ self.old.handed }
        ensures out { self.new.out ≡ self.old.out + 1 }
        ensures shut { (self.new.shut ≡ self.old.shut) × (self.old.shut ≡ false) }
        ensures calls { self.new.calls ≡ self.old.calls }
        ensures fail_at { self.new.fail_at ≡ self.old.fail_at }
        ensures count { self.new.count ≡ self.old.count }
    {
        let empty = MemLink::new(
            self.alloc,
            Vec::new(self.alloc),
            Vec::new(self.alloc),
            Vec::new(self.alloc),
        );
        let link = mem::replace(&mut self.links[self.given], empty);
        self.given += 1;
        link
    }
}

impl Door<MemLink> for MemDoor {
    ghost left = { λ d. Some d.left };

    ghost handed = { λ d. Some d.handed };

    ghost out = { λ d. d.out };

    ghost shut = { λ d. d.shut };

    ghost faults = { λ d. d.count };

    fn listen(&mut self, _addr: &str) -> Result<(), DoorFailed>
        ensures left { self.new.left ≡ self.old.left }
        ensures handed { self.new.handed ≡ self.old.handed }
        ensures out { self.new.out ≡ self.old.out }
        ensures shut { self.new.shut ≡ self.old.shut }
        ensures cause { ListenCause self.old.count self.new.count result }
        ensures follows { MatchResult result (λ _. fails_next self.old ≡ false) (λ _. fails_next self.old ≡ true) }
        ensures calls { self.new.calls ≡ risen self.old.calls }
        ensures fail_at { self.new.fail_at ≡ self.old.fail_at }
    {
        if self.meets_fault() {
            return Err(DoorFailed);
        }
        Ok(())
    }

    fn next(&mut self) -> Accepted<MemLink>
        ensures gives { Gives (λ l. l.closed) (λ l. Some l.log) result (Some self.old.left) (Some self.new.left) self.old.shut }
        ensures handed { self.new.handed ≡ self.old.handed }
        ensures out { self.new.out ≡ out_after result self.old.out }
        ensures shut { self.new.shut ≡ shut_after result self.old.shut }
        ensures cause { NextCause self.old.count self.new.count result }
        ensures follows { result ≡ next_of self.old }
        ensures calls { self.new.calls ≡ risen self.old.calls }
        ensures fail_at { self.new.fail_at ≡ self.old.fail_at }
    {
        if self.meets_fault() {
            return Accepted::Failed;
        }
        if self.given == self.links.len() {
            self.shut = true;
            return Accepted::Closed;
        }
        Accepted::Conn(self.take_first())
    }

    fn back(&mut self, link: MemLink)
        requires { 0 < self.old.out }
        ensures left { self.new.left ≡ self.old.left }
        ensures handed { self.new.handed ≡ self.old.handed ++ link ∷ [] }
        ensures out { self.new.out + 1 ≡ self.old.out }
        ensures shut { self.new.shut ≡ self.old.shut }
        ensures faults { self.new.count ≡ self.old.count }
        ensures calls { self.new.calls ≡ self.old.calls }
        ensures fail_at { self.new.fail_at ≡ self.old.fail_at }
    {
        self.links[self.handed] = link;
        self.handed += 1;
    }
}
