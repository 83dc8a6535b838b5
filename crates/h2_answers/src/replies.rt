//! The replies of a stream that wait.

ghost use Rattle.std.specs.Prelude.{◌≡◌, ℕ, ◌+◌, ◌-◌, ◌^◌, ◌<◌, ◌≤◌, ◌==◌, List, [], ◌++◌, length, take, OnOk, OnErr, vec_len, vec_capacity};
ghost use Rattle.std.specs.List.{concat, AllByRecursion};
ghost use Rattle.h2_answers.specs.Replies.{IsUnwritten, adding_reply, drop_bytes};
ghost use Rattle.h2_answers.specs.Kept.{unwritten};

use outside::{Blob, Memory};
use std::alloc::Global;
use std::collections::VecDeque;
use std::marker::Model;

/// The most bytes that may wait on a stream. No machine has them.
const MOST_BYTES: u64 = 0x4000_0000_0000_0000;

/// Replies in their order, of the first of which some bytes may be written. Contracts see the list of the bytes of
/// each that wait.
#[derive(Drop)]
pub(crate) struct Replies {
    kept: VecDeque<Blob>,
    /// How many bytes of the first reply are written.
    at: usize,
    /// How many bytes wait, of all replies.
    waiting: u64,
}

impl Model for Replies {
    ghost use Rattle.std.specs.Prelude.{List, ℕ};
    ghost use Rattle.h2_answers.specs.Kept.{unwritten, AreReplies};

    ghost Value = { List (List ℕ) };

    ghost view = { λ r. unwritten r.at r.kept.items };

    ghost invariant = { λ r. AreReplies r.at r.kept.items r.waiting };
}

impl Replies {
    /// No replies. It can't be refused.
    pub(crate) fn new(alloc: Global) -> Replies
        ensures { result ≡ [] }
    {
        Replies {
            kept: VecDeque::new(alloc),
            at: 0,
            waiting: 0,
        }
    }

    /// How many wait.
    pub(crate) fn len(&self) -> usize
        ensures { result ≡ length self.now }
    {
        self.kept.len()
    }

    /// How many bytes wait.
    pub(crate) fn bytes(&self) -> u64
        ensures value { result ≡ length (concat self.now) }
        ensures few { result ≤ 2 ^ 62 }
        ensures each { AllByRecursion IsUnwritten self.now }
    {
        self.waiting
    }

    /// Adds a reply behind the others.
    pub(crate) fn push(&mut self, reply: Blob) -> Result<(), Memory>
        ensures ok { OnOk result (self.new ≡ adding_reply self.old reply) }
        ensures err { OnErr result (self.new ≡ self.old) }
    {
        let len = reply.len() as u64;
        if len == 0 {
            return Ok(());
        }
        if len > MOST_BYTES - self.waiting {
            return Err(Memory);
        }
        self.kept.push_back(reply)?;
        self.waiting += len;
        Ok(())
    }

    /// The first `n` bytes are written.
    pub(crate) fn advance(&mut self, n: usize)
        requires { n ≤ length (concat self.old) }
        ensures { self.new ≡ drop_bytes n self.old }
    {
        drop_front(&mut self.kept, &mut self.at, n);
        self.waiting -= n as u64;
    }

    /// Appends the first `n` bytes that wait. Room for them is there.
    pub(crate) fn copy_front(&self, out: &mut Vec<u8>, n: usize)
        requires { vec_len out.old + n ≤ vec_capacity out.old }
        ensures { out.new.items ≡ out.old.items ++ take n (concat self.now) }
    {
        copy_front(&self.kept, self.at, out, n);
    }
}

// Takes bytes from the front of the replies, with `at` bytes of the first taken before.
fn drop_front(kept: &mut VecDeque<Blob>, at: &mut usize, n: usize)
    requires each { AllByRecursion IsUnwritten (unwritten at.old kept.old.items) }
    requires none { kept.old.items ≡ [] → at.old ≡ 0 }
    ensures dropped { unwritten at.new kept.new.items ≡ drop_bytes n (unwritten at.old kept.old.items) }
    ensures each { AllByRecursion IsUnwritten (unwritten at.new kept.new.items) }
    ensures none { kept.new.items ≡ [] → at.new ≡ 0 }
{
    let mut left = n;
    while let Some(first) = kept.front() {
        let rest = first.len() - *at;
        if left < rest {
            *at += left;
            return;
        }
        left -= rest;
        kept.pop_front();
        *at = 0;
    }
}

// Appends bytes from the front of the replies, without the first `at` of the first. Room for them is there.
fn copy_front(kept: &VecDeque<Blob>, at: usize, out: &mut Vec<u8>, n: usize)
    requires each { AllByRecursion IsUnwritten (unwritten at kept.now.items) }
    requires room { vec_len out.old + n ≤ vec_capacity out.old }
    ensures { out.new.items ≡ out.old.items ++ take n (concat (unwritten at kept.now.items)) }
{
    let mut left = n;
    let mut skip = at;
    for reply in kept.iter() {
        let rest = &reply.bytes()[skip..];
        if left <= rest.len() {
            out.extend_from_slice(&rest[..left]).unwrap();
            return;
        }
        out.extend_from_slice(rest).unwrap();
        left -= rest.len();
        skip = 0;
    }
}
