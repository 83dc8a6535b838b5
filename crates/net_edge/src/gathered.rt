//! Bytes that wait to be written.

ghost use Rattle.std.specs.Prelude.{◌≡◌, ◌==◌, ◌≤◌, [], ◌++◌, length, take, drop, IfOk};

use std::alloc::{AllocError, Global};
use std::marker::Model;

// How many bytes are gathered before they are written.
const MOST: usize = 65_536;

// The bytes that a link took and that aren't written yet. Contracts see the list of them.
#[derive(Drop)]
pub(crate) struct Gathered {
    bytes: Vec<u8>,
    sent: usize,
}

impl Model for Gathered {
    ghost use Rattle.std.specs.Prelude.{◌≤◌, List, ℕ, drop, vec_len};

    ghost Value = { List ℕ };

    ghost view = { λ g. drop g.sent g.bytes.items };

    ghost invariant = { λ g. g.sent ≤ vec_len g.bytes };
}

impl Gathered {
    pub(crate) fn new(alloc: Global) -> Result<Gathered, AllocError>
        ensures { IfOk result (λ g. g ≡ []) }
    {
        Ok(Gathered {
            bytes: Vec::with_capacity(alloc, MOST)?,
            sent: 0,
        })
    }

    pub(crate) fn is_empty(&self) -> bool
        ensures { result ≡ (length self.now == 0) }
    {
        self.sent == self.bytes.len()
    }

    // Whether no byte can be taken until all are written.
    pub(crate) fn is_full(&self) -> bool {
        self.bytes.len() >= MOST
    }

    // The bytes, in order.
    pub(crate) fn rest(&self) -> &[u8]
        ensures { result.now ≡ self.now }
    {
        &self.bytes[self.sent..]
    }

    // Takes as many of `from` as there is room for, and says how many.
    pub(crate) fn take_in(&mut self, from: &[u8]) -> usize
        ensures within { result ≤ length from.now }
        ensures taken { self.new ≡ self.old ++ take result from.now }
    {
        let n = from.len().min(MOST.saturating_sub(self.bytes.len()));
        if self.bytes.extend_from_slice(&from[..n]).is_err() {
            return 0;
        }
        n
    }

    // The first `n` are written.
    pub(crate) fn wrote(&mut self, n: usize)
        requires { n ≤ length self.old }
        ensures { self.new ≡ drop n self.old }
    {
        self.sent += n;
        if self.sent == self.bytes.len() {
            self.bytes.clear();
            self.sent = 0;
        }
    }
}
