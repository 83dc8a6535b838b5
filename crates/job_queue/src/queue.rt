//! The queue, and the hands of its threads.

ghost use Rattle.std.specs.Prelude.{◌≡◌, ◌<◌, ◌^◌, true, false, IfOk, IfSome, IfNone};
ghost use Rattle.job_queue.specs.Queue.{newcomer, less, taker, both, putting, taking, Settles};
ghost use Rattle.job_queue.specs.Hands.{IsOf, known};

use crate::hands::{Cut, Fair, Known, Puts, Takes, Total};
use crossbeam_queue::{Pass, RuledArrayQueue};
use std::alloc::{AllocError, Global};
use std::sync::{Condvar, Mutex, Wait};
use std::thread;

/// What a thread knows of a queue. Contracts see its parts, what it put, where it may put, and what it took.
#[derive(Drop)]
pub struct Hand<T> {
    pass: Pass<T, Known<T>>,
}

// How often the queue changed, and whether it is closed.
#[derive(Drop)]
struct Moves {
    count: u64,
    closed: bool,
}

/// A queue of jobs, with room for so many, which threads share.
#[derive(Drop)]
pub struct Queue<T> {
    line: RuledArrayQueue<T, Known<T>, Fair<T>>,
    moves: Mutex<Moves>,
    moved: Condvar,
}

impl<T> Queue<T> {
    /// An empty queue with room for `room` jobs, and the hand that may put, which has all parts.
    pub fn new(alloc: Global, room: usize) -> Result<(Queue<T>, Hand<T>), AllocError>
        requires { 0 < room }
        ensures hand { IfOk result (λ q. IsOf q.0 q.1) }
        ensures known { IfOk result (λ q. known q.1 ≡ newcomer) }
    {
        let (line, pass) = RuledArrayQueue::ruled(alloc, room)?;
        let moves = Mutex::new(Moves {
            count: 0,
            closed: false,
        });
        let queue = Queue {
            line,
            moves,
            moved: Condvar::new(),
        };
        Ok((queue, Hand { pass }))
    }

    /// A hand for a taker, with one part of this hand's.
    pub fn another(&self, hand: &mut Hand<T>) -> Hand<T>
        requires hand { IsOf self.now hand.old }
        requires parts { 1 < (known hand.old).parts }
        ensures hand { IsOf self.now hand.new }
        ensures known { known hand.new ≡ less (known hand.old) }
        ensures new { IsOf self.now result }
        ensures taker { known result ≡ taker }
    {
        let pass = self.line.another::<Cut>(&mut hand.pass);
        Hand { pass }
    }

    /// Joins a taker's hand to this one.
    pub fn join(&self, hand: &mut Hand<T>, other: Hand<T>)
        requires hand { IsOf self.now hand.old }
        requires other { IsOf self.now other }
        requires parts { 0 < (known hand.old).parts }
        requires taker { (known other).puts ≡ false }
        ensures hand { IsOf self.now hand.new }
        ensures known { known hand.new ≡ both (known hand.old) (known other) }
    {
        self.line.absorb::<Cut>(&mut hand.pass, other.pass);
    }

    /// Puts a job. It waits where there is no room.
    pub fn put<R: Wait>(&self, rt: &R, hand: &mut Hand<T>, job: T)
        requires hand { IsOf self.now hand.old }
        requires parts { 0 < (known hand.old).parts }
        requires puts { (known hand.old).puts ≡ true }
        ensures hand { IsOf self.now hand.new }
        ensures known { known hand.new ≡ putting (known hand.old) job }
    {
        let mut waits = job;
        for _ in rt.forever() {
            match self.line.try_push_as::<Puts>(&mut hand.pass, waits) {
                Ok(()) => {
                    self.tell(rt, false);
                    return;
                }
                Err(job) => waits = job,
            }
            thread::yield_now();
        }
        unreachable!()
    }

    /// Closes the queue: takers no longer wait once it is empty.
    pub fn close<R: Wait>(&self, rt: &R) {
        self.tell(rt, true);
    }

    /// Takes the next job. It waits for one; None comes only once the queue was closed and empty.
    pub fn take<R: Wait>(&self, rt: &R, hand: &mut Hand<T>) -> Option<T>
        requires hand { IsOf self.now hand.old }
        requires parts { 0 < (known hand.old).parts }
        ensures hand { IsOf self.now hand.new }
        ensures takes { IfSome result (λ job. known hand.new ≡ taking (known hand.old) job) }
        ensures none { IfNone result (known hand.new ≡ known hand.old) }
    {
        let mut closed = false;
        for _ in rt.forever() {
            let seen = self.moves.lock(rt).count;
            if let Some(job) = self.line.pop_as::<Takes, R>(rt, &mut hand.pass) {
                return Some(job);
            }
            if closed {
                return None;
            }
            closed = self.wait_past(rt, seen);
        }
        unreachable!()
    }

    /// How many jobs are left, for the hand with all parts, by which all that was taken was put.
    pub fn left<R: Wait>(&self, rt: &R, hand: &mut Hand<T>) -> usize
        requires hand { IsOf self.now hand.old }
        requires parts { (known hand.old).parts ≡ 2 ^ 32 }
        requires puts { (known hand.old).puts ≡ true }
        ensures hand { IsOf self.now hand.new }
        ensures same { known hand.new ≡ known hand.old }
        ensures settles { Settles (known hand.new) result }
    {
        self.line.len_as::<Total, R>(rt, &mut hand.pass)
    }

    // Tells of a move.
    fn tell<R: Wait>(&self, rt: &R, closes: bool) {
        let mut moves = self.moves.lock(rt);
        moves.count = moves.count.wrapping_add(1);
        moves.closed = moves.closed || closes;
        self.moved.notify_all();
    }

    // Waits for a move since `seen`. True if the queue is closed.
    fn wait_past<R: Wait>(&self, rt: &R, seen: u64) -> bool {
        let moves = self.moved.wait_while(rt, self.moves.lock(rt), |m| {
            m.count == seen && !m.closed
        });
        moves.closed
    }
}
