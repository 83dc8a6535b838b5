//! What moved over a link in memory.

ghost use Rattle.std.specs.Prelude.{◌≡◌, ◌≤◌, true, [], ◌∷◌, ◌++◌, length, take, drop, if◌then◌else◌};
ghost use Rattle.links.specs.Link.{Read, Wrote, Waited, bytes_written};

use std::alloc::Global;
use std::marker::Model;

// One entry of the log, by the number of its bytes.
#[derive(Clone, Copy, Debug, PartialEq, Eq)]
pub(crate) enum Step {
    Read(usize),
    Wrote(usize),
    Waited,
}

// The bytes of a link in memory, each kept once, and the lengths of what moved. Contracts see the
// bytes left to read and the log.
#[derive(Drop)]
pub(crate) struct Traffic {
    input: Vec<u8>,
    at: usize,
    written: Vec<u8>,
    steps: Vec<Step>,
}

impl Model for Traffic {
    ghost use Rattle.std.specs.Prelude.{◌≤◌, ◌≡◌, take, drop, vec_len};
    ghost use Rattle.links.specs.Memory.{Passed, log_of, read_by, written_by};

    ghost Value = { Passed };

    ghost view = { λ t. record { left = drop t.at t.input.items; log = log_of t.steps.items (take t.at t.input.items) t.written.items } };

    ghost invariant = { λ t. (t.at ≤ vec_len t.input) × (read_by t.steps.items ≡ t.at) × (written_by t.steps.items ≡ vec_len t.written) };
}

// Copies `from` to the front of `into`, which has room for it.
fn copy_to_front(from: &[u8], into: &mut [u8])
    requires { length from.now ≤ length into.old }
    ensures front { take (length from.now) into.new ≡ from.now }
{
    into[..from.len()].copy_from_slice(from);
}

impl Traffic {
    pub(crate) fn new(alloc: Global, input: Vec<u8>) -> Traffic
        ensures { result ≡ record { left = input.items; log = [] } }
    {
        Traffic {
            input,
            at: 0,
            written: Vec::new(alloc),
            steps: Vec::new(alloc),
        }
    }

    // How many bytes are left to read.
    pub(crate) fn left(&self) -> usize
        ensures { result ≡ length self.now.left }
    {
        self.input.len() - self.at
    }

    pub(crate) fn written(&self) -> &[u8]
        ensures { result.now ≡ bytes_written self.now.log }
    {
        self.written.as_slice()
    }

    // Moves the next `n` bytes to the front of `into`. False where there is no memory for the entry,
    // and then nothing moved.
    pub(crate) fn read(&mut self, n: usize, into: &mut [u8]) -> bool
        requires there { n ≤ length self.old.left }
        requires room { n ≤ length into.old }
        ensures log { self.new.log ≡ (if result then self.old.log ++ Read (take n into.new) ∷ [] else self.old.log) }
        ensures left { self.new.left ≡ (if result then drop n self.old.left else self.old.left) }
        ensures given { result ≡ true → take n self.old.left ≡ take n into.new }
    {
        if self.steps.reserve(1).is_err() {
            return false;
        }
        self.steps.push_reserved(Step::Read(n));
        let end = self.at + n;
        copy_to_front(&self.input[self.at..end], into);
        self.at = end;
        true
    }

    // Keeps `from`. False where there is no memory for it, and then nothing moved.
    pub(crate) fn write(&mut self, from: &[u8]) -> bool
        ensures log { self.new.log ≡ (if result then self.old.log ++ Wrote from.now ∷ [] else self.old.log) }
        ensures left { self.new.left ≡ self.old.left }
    {
        if self.steps.reserve(1).is_err() || self.written.extend_from_slice(from).is_err() {
            return false;
        }
        self.steps.push_reserved(Step::Wrote(from.len()));
        true
    }

    // Notes a wait. False where there is no memory for the entry.
    pub(crate) fn wait(&mut self) -> bool
        ensures log { self.new.log ≡ (if result then self.old.log ++ Waited ∷ [] else self.old.log) }
        ensures left { self.new.left ≡ self.old.left }
    {
        if self.steps.reserve(1).is_err() {
            return false;
        }
        self.steps.push_reserved(Step::Waited);
        true
    }
}
